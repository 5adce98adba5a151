//! Whether a long form is within the limits, found before it is made.
ghost use Rattle.std.specs.Prelude.{◌≡◌, ◌+◌, ◌≤◌};
ghost use Rattle.pure_definitions.specs.Types.Typ.{typ_size, typ_depth};
ghost use Rattle.pure_definitions.specs.Terms.Term.{term_size, term_depth, max_depth};
ghost use Rattle.pure_term.specs.Scope.{scope_typs};
ghost use Rattle.pure_eta.specs.LongTerm.{front_typ, long_term};
ghost use Rattle.pure_eta.specs.Fits.{Fits, added_size, expanded_depth, added_at, depth_at};

use crate::front::front_typ_of;
use pure_term::{MAX_DEPTH, Scope, Term, TermNode, Typ};
use pure_typ::{depth_of_typ, typ_leaves};

/// How many nodes are left when something was put in, and how deep that is.
#[derive(Clone, Copy)]
pub struct Room {
    pub left: u32,
    pub depth: u32,
}

/// Puts a node above things of this depth.
fn node_fits(left: u32, depth: u32) -> Option<Room>
    ensures { Fits left 1 (1 + depth) result }
{
    if left == 0 {
        return None;
    }
    if depth >= MAX_DEPTH {
        return None;
    }
    Some(Room {
        left: left - 1,
        depth: depth + 1,
    })
}

/// Puts in a type.
fn typ_fits(t: &Typ, left: u32) -> Option<Room>
    ensures { Fits left (typ_size t.now) (typ_depth t.now) result }
{
    let Some(rest) = typ_leaves(t, left, MAX_DEPTH) else {
        return None;
    };
    Some(Room {
        left: rest,
        depth: depth_of_typ(t),
    })
}

/// Puts in what a term of this depth has more when it is expanded at the type.
fn expansion_fits(typ: &Typ, left: u32, depth: u32) -> Option<Room>
    requires { depth ≤ max_depth }
    ensures { Fits left (added_size typ.now) (expanded_depth typ.now depth) result }
{
    let Some((domain, range)) = typ.as_arrow() else {
        return Some(Room { left, depth });
    };
    let Some(binder) = typ_fits(domain, left) else {
        return None;
    };
    if binder.left < 3 {
        return None;
    }
    let Some(arg) = expansion_fits(domain, binder.left - 3, 1) else {
        return None;
    };
    let inside = depth.max(arg.depth);
    if inside >= MAX_DEPTH {
        return None;
    }
    let Some(body) = expansion_fits(range, arg.left, inside + 1) else {
        return None;
    };
    let deepest = binder.depth.max(body.depth);
    if deepest >= MAX_DEPTH {
        return None;
    }
    Some(Room {
        left: body.left,
        depth: deepest + 1,
    })
}

/// Puts in a node above things of this depth, and what the term that it makes has more when it is expanded at its type, where it isn't applied.
fn front_fits(t: &Term, scope: &Scope, is_applied: bool, left: u32, depth: u32) -> Option<Room>
    requires { depth ≤ max_depth }
    ensures { let typ = front_typ (scope_typs scope.now) t.now in Fits left (1 + added_at is_applied typ) (depth_at is_applied typ (1 + depth)) result }
{
    let Some(front) = node_fits(left, depth) else {
        return None;
    };
    if is_applied {
        return Some(front);
    }
    match front_typ_of(t, scope) {
        Some(typ) => expansion_fits(typ, front.left, front.depth),
        None => Some(front),
    }
}

/// The same above the type of a constant or a variable.
fn leaf_fits(typ: &Typ, t: &Term, scope: &Scope, is_applied: bool, left: u32) -> Option<Room>
    ensures { let place = front_typ (scope_typs scope.now) t.now in Fits left (1 + (typ_size typ.now + added_at is_applied place)) (depth_at is_applied place (1 + typ_depth typ.now)) result }
{
    let Some(inside) = typ_fits(typ, left) else {
        return None;
    };
    front_fits(t, scope, is_applied, inside.left, inside.depth)
}

/// Puts in the long form of the term.
pub fn long_fits(t: &Term, scope: &Scope, is_applied: bool, left: u32) -> Option<Room>
    ensures { let u = long_term is_applied (scope_typs scope.now) t.now in Fits left (term_size u) (term_depth u) result }
{
    match &t.node {
        TermNode::Const { typ, .. } => leaf_fits(typ, t, scope, is_applied, left),
        TermNode::Free { typ, .. } => leaf_fits(typ, t, scope, is_applied, left),
        TermNode::Var { typ, .. } => leaf_fits(typ, t, scope, is_applied, left),
        TermNode::Bound { .. } => front_fits(t, scope, is_applied, left, 0),
        TermNode::Abs { typ, body, .. } => {
            let Some(binder) = typ_fits(typ, left) else {
                return None;
            };
            let Some(under) = long_fits(body, &Scope::Under(typ, &*scope), false, binder.left)
            else {
                return None;
            };
            node_fits(under.left, binder.depth.max(under.depth))
        }
        TermNode::App { fun, arg, .. } => {
            let Some(function) = long_fits(fun, scope, true, left) else {
                return None;
            };
            let Some(argument) = long_fits(arg, scope, false, function.left) else {
                return None;
            };
            let inside = function.depth.max(argument.depth);
            front_fits(t, scope, is_applied, argument.left, inside)
        }
    }
}
