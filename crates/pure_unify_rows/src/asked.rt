//! Whether pairs are such as calls ask for.
ghost use Rattle.std.specs.Bool.{OnTrue};
ghost use Rattle.pure_text.specs.Lists.{Each};
ghost use Rattle.pure_unify_nodes.specs.SideAnswer.{IsTyped, AreSidesTyped};

use pure_term::{Term, typ_of};
use pure_theorem::Pair;
use pure_typ::Typ;
use std::alloc::Global;

/// Lets go of a type.
fn discard(_typ: Typ) {}

/// Whether the term has a type.
fn is_typed(alloc: Global, t: &Term) -> bool
    ensures { OnTrue result (IsTyped t.now) }
{
    match typ_of(alloc, t) {
        Ok(typ) => {
            discard(typ);
            true
        }
        Err(_) => false,
    }
}

/// Whether both sides have types.
fn are_sides_typed(alloc: Global, pair: &Pair) -> bool
    ensures { OnTrue result (AreSidesTyped pair.now) }
{
    if !is_typed(alloc, &pair.left) {
        return false;
    }
    is_typed(alloc, &pair.right)
}

/// Whether all sides have types.
pub(crate) fn are_typed(alloc: Global, pairs: &[Pair]) -> bool
    ensures { OnTrue result (Each AreSidesTyped pairs.now) }
{
    for pair in pairs {
        if !are_sides_typed(alloc, pair) {
            return false;
        }
    }
    true
}
