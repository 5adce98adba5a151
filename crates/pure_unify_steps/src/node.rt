//! Nodes of the search as the program holds them.
use pure_term::{TermMap, TypMap};
use pure_theorem::Pair;

/// A setting: a type map, or one entry for a schematic variable.
#[derive(Drop)]
pub enum Setting {
    OfTyps(TypMap),
    OfTerm(TermMap),
}

/// The path from the root: its settings in order, the count of choices, and the first name of a fresh type variable that isn't used.
#[derive(Drop)]
pub struct Path {
    pub settings: Vec<Setting>,
    pub choices: u32,
    pub fresh: u32,
}

/// A node: its pairs and its path.
#[derive(Drop)]
pub struct Node {
    pub pairs: Vec<Pair>,
    pub path: Path,
}
