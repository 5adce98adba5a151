//! Visits of nodes. What they find isn't let go, since that would be proved anew.
use crate::asked::are_typed;
use crate::entries::{are_entries, none, push_terms, push_typs};
use crate::notes::{outcome_of, text};
use crate::sides::{are_pairs, pairs};
use pure_norm::NormFault;
use pure_notation::{NotationFault, Parts};
use pure_order::Order;
use pure_rows::{Outcome, Row, Subject};
use pure_theorem::Pair;
use pure_unify_steps::{Node, Path, Setting};
use pure_unify_visits::{Visited, visit};
use std::alloc::{AllocError, Global};
use std::mem;
use std::rt::Files;

/// Visits under an order.
#[derive(Drop)]
pub(crate) struct Visits<'o> {
    pub(crate) order: &'o Order,
}

impl Subject for Visits<'_> {
    fn outcome<R: Files + Print + AllocGlobal>(
        &self,
        _rt: &R,
        alloc: Global,
        row: &Row,
    ) -> Outcome {
        match read_wanted(row) {
            Some(wanted) => outcome_of(holds(alloc, self.order, row.field(1), wanted)),
            None => Outcome::Unreadable,
        }
    }
}

/// What is wanted of a node: the sides of the simple node's pairs in turn, and its settings, each variable before its image; or that it fails, or what stops the search.
#[derive(Clone, Copy)]
enum Wanted<'r> {
    Simple(&'r [u8], &'r [u8]),
    Failed,
    Steps,
    Big,
}

/// What the row wants.
fn read_wanted(row: &Row) -> Option<Wanted<'_>> {
    match row.field(0) {
        b"simple" if row.len() == 4 => {
            Some(Wanted::Simple(text(row.field(2)), text(row.field(3))))
        }
        b"failed" if row.len() == 2 => Some(Wanted::Failed),
        b"stopped" if row.len() == 3 => stop(row.field(2)),
        _ => None,
    }
}

/// What stops the search under this name.
fn stop(name: &[u8]) -> Option<Wanted<'static>> {
    match name {
        b"Steps" => Some(Wanted::Steps),
        b"Big" => Some(Wanted::Big),
        _ => None,
    }
}

/// What a node of these pairs comes to at the root of a search, whose indexes are at most 3.
fn visited(alloc: Global, order: &Order, pairs: Vec<Pair>) -> Result<Visited, NormFault> {
    if !are_typed(alloc, &pairs) {
        mem::forget(pairs);
        return Err(NormFault::Memory);
    }
    let path = Path {
        settings: Vec::new(alloc),
        choices: 0,
        fresh: 0,
    };
    visit(alloc, order, 3, Node { pairs, path })
}

/// Puts the setting's variables and images behind the others.
fn push_setting(alloc: Global, found: &mut Parts, setting: &Setting) -> Result<(), AllocError> {
    match setting {
        Setting::OfTyps(map) => push_typs(alloc, found, map),
        Setting::OfTerm(map) => push_terms(alloc, found, map),
    }
}

/// Puts the settings' variables and images behind the others, of types and of terms.
fn push_settings(
    alloc: Global,
    found: &mut Parts,
    settings: &[Setting],
) -> Result<(), NotationFault> {
    for setting in settings {
        push_setting(alloc, found, setting)?;
    }
    Ok(())
}

/// Whether the settings are those of the text.
fn are_settings(alloc: Global, settings: &[Setting], text: &[u8]) -> Result<bool, NotationFault> {
    let mut found = none(alloc);
    let answer = match push_settings(alloc, &mut found, settings) {
        Ok(_) => are_entries(alloc, &found, text),
        Err(fault) => Err(fault),
    };
    mem::forget(found);
    answer
}

/// Whether the node has these pairs and these settings.
fn is_node(
    alloc: Global,
    node: &Node,
    pairs: &[u8],
    settings: &[u8],
) -> Result<bool, NotationFault> {
    let has_pairs = are_pairs(alloc, &node.pairs, pairs)?;
    let has_settings = are_settings(alloc, &node.path.settings, settings)?;
    Ok(has_pairs && has_settings)
}

/// Whether the answer is the one that is wanted.
fn is_wanted(
    alloc: Global,
    found: &Result<Visited, NormFault>,
    wanted: Wanted<'_>,
) -> Result<bool, NotationFault> {
    match (found, wanted) {
        (Ok(Visited::Simple(node)), Wanted::Simple(pairs, settings)) => {
            is_node(alloc, node, pairs, settings)
        }
        (Ok(Visited::Failed), Wanted::Failed) => Ok(true),
        (Err(NormFault::Steps), Wanted::Steps) => Ok(true),
        (Err(NormFault::Big), Wanted::Big) => Ok(true),
        _ => Ok(false),
    }
}

/// Whether the node of the text's pairs comes to what is wanted.
fn holds(
    alloc: Global,
    order: &Order,
    sides: &[u8],
    wanted: Wanted<'_>,
) -> Result<bool, NotationFault> {
    let pairs = pairs(alloc, text(sides))?;
    let found = visited(alloc, order, pairs);
    let answer = is_wanted(alloc, &found, wanted);
    mem::forget(found);
    answer
}
