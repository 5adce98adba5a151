//! A node while it is simplified.
ghost use Rattle.std.specs.Prelude.{◌≡◌, ◌++◌, ◌∷◌, [], reverse, OnOk};
ghost use Rattle.pure_text.specs.Lists.{Each};
ghost use Rattle.pure_unify_definitions.specs.Node as nodes;
ghost use Rattle.pure_unify_steps.specs.Held.{IsNode};
ghost use Rattle.pure_unify_nodes.specs.Long.{IsLongPair};
ghost use Rattle.pure_unify_visits.specs.Scanned.{IsScan, IsReady};

use pure_theorem::Pair;
use pure_unify_steps::{Node, Path};
use std::alloc::{AllocError, Global};

/// What a visit comes to: a node to no pair of which a rule applies, or the node fails.
#[derive(Drop)]
pub enum Visited {
    Simple(Node),
    Failed,
}

/// The pairs that were passed, to none of which a rule applies, those still to come, the first of them last, and the path.
#[derive(Drop)]
pub struct Scan {
    pub passed: Vec<Pair>,
    pub rest: Vec<Pair>,
    pub path: Path,
}

/// What comes of one turn: the scan goes on, or the visit ends.
#[derive(Drop)]
pub enum Turn {
    Onward(Scan),
    Ends(Visited),
}

/// Lets go of a pair.
pub fn discard(_pair: Pair) {}

/// Puts the pair behind those of the list.
pub fn put_behind(list: &mut Vec<Pair>, pair: Pair) -> Result<(), AllocError>
    ensures { OnOk result (list.new.items ≡ list.old.items ++ pair ∷ []) }
{
    list.push(pair)?;
    Ok(())
}

/// Moves the pairs behind those of the list, the last of them first.
pub fn move_back(mut pairs: Vec<Pair>, list: &mut Vec<Pair>) -> Result<(), AllocError>
    ensures { OnOk result (list.new.items ≡ list.old.items ++ reverse pairs.items) }
{
    while let Some(pair) = pairs.pop() {
        list.push(pair)?;
    }
    Ok(())
}

/// A scan of the node from the front.
pub fn scan_of(alloc: Global, node: Node) -> Scan
    requires long { Each IsLongPair node.pairs.items }
    ensures node { (n : nodes.Node) → IsNode node n → IsScan result n }
    ensures ready { IsReady result }
{
    let Node { mut pairs, path } = node;
    pairs.reverse();
    Scan {
        passed: Vec::new(alloc),
        rest: pairs,
        path,
    }
}
