//! Whether pairs are such as the call asks for.
ghost use Rattle.std.specs.Prelude.{◌≡◌, [], IfSome};
ghost use Rattle.std.specs.Bool.{OnTrue};
ghost use Rattle.pure_definitions.specs.Types.Typ.{typ_eq};
ghost use Rattle.pure_definitions.specs.Terms.Typing.{HasType};
ghost use Rattle.pure_pattern_laws.specs.Answers.{AreReady};
ghost use Rattle.pure_pattern_rows.specs.Sides.{IsSide, IsReadyPair};

use pure_eta::is_own_long_form;
use pure_term::{Term, index_above_of, typ_of};
use pure_theorem::Pair;
use pure_typ::Typ;
use std::alloc::Global;

/// The type of the term, where it has one under no binders.
fn typed(alloc: Global, t: &Term) -> Option<Typ>
    ensures { IfSome result (HasType [] t.now) }
{
    match typ_of(alloc, t) {
        Ok(typ) => Some(typ),
        Err(_) => None,
    }
}

/// The type of a side in long form, whose indexes are at most 3.
fn side_typ(alloc: Global, t: &Term) -> Option<Typ>
    ensures { IfSome result (IsSide t.now) }
{
    let Some(typ) = typed(alloc, t) else {
        return None;
    };
    if !is_own_long_form(t) {
        return None;
    }
    let above = index_above_of(t);
    if 4 < above {
        return None;
    }
    Some(typ)
}

/// Whether the types are equal.
fn are_one(left: &Typ, right: &Typ) -> bool
    ensures { result ≡ typ_eq left.now right.now }
{
    *left == *right
}

/// Whether both sides are such, and of one type.
fn is_ready(alloc: Global, pair: &Pair) -> bool
    ensures { OnTrue result (IsReadyPair pair.now) }
{
    let Some(left) = side_typ(alloc, &pair.left) else {
        return false;
    };
    let Some(right) = side_typ(alloc, &pair.right) else {
        return false;
    };
    are_one(&left, &right)
}

/// Whether all pairs are.
pub(crate) fn are_ready(alloc: Global, pairs: &[Pair]) -> bool
    ensures { OnTrue result (AreReady 3 pairs.now) }
{
    for pair in pairs {
        if !is_ready(alloc, pair) {
            return false;
        }
    }
    true
}
