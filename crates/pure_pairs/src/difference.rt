//! The first difference of two terms modulo pairs.
ghost use Rattle.std.specs.Prelude.{◌≡◌};
ghost use Rattle.pure_definitions.specs.Terms.Typing as typing;
ghost use Rattle.pure_definitions.specs.Terms.Limits.{cut_off};
ghost use Rattle.pure_term.specs.Scope.{scope_typs};
ghost use Rattle.pure_pairs.specs.Difference.{unless_listed, at_node, further, difference as first_difference};

use crate::scope::is_listed_under;
use pure_term::{Scope, Term, TermNode};
use pure_theorem::Pair;

/// The count of the term's nodes, cut off.
fn node_count(t: &Term) -> u32
    ensures { result ≡ cut_off (typing.node_count t.now) }
{
    match &t.node {
        TermNode::Abs { body, .. } => node_count(body).saturating_add(1),
        TermNode::App { fun, arg, .. } => node_count(fun)
            .saturating_add(node_count(arg))
            .saturating_add(1),
        _ => 1,
    }
}

/// The place of a difference inside the parts; none where the parts are the sides of a listed pair.
fn unless_sides(
    pairs: &[Pair],
    scope: &Scope<'_, '_>,
    t: &Term,
    u: &Term,
    place: u32,
) -> Option<u32>
    ensures { result ≡ unless_listed pairs.now (scope_typs scope.now) t.now u.now place }
{
    if is_listed_under(scope, pairs, t, u) {
        None
    } else {
        Some(place)
    }
}

/// The difference of parts that aren't built alike from others.
fn at_nodes(pairs: &[Pair], scope: &Scope<'_, '_>, t: &Term, u: &Term) -> Option<u32>
    ensures { result ≡ at_node pairs.now (scope_typs scope.now) t.now u.now }
{
    if *t == *u {
        None
    } else {
        unless_sides(pairs, scope, t, u, 0)
    }
}

/// The difference of parts, of whose own parts those that lie so much further on have this difference.
fn further_on(
    pairs: &[Pair],
    scope: &Scope<'_, '_>,
    t: &Term,
    u: &Term,
    by: u32,
    found: Option<u32>,
) -> Option<u32>
    ensures { result ≡ further pairs.now (scope_typs scope.now) t.now u.now by found }
{
    match found {
        None => None,
        Some(place) => unless_sides(pairs, scope, t, u, place.saturating_add(by)),
    }
}

/// The place in t of the first difference of the two under the scope, modulo the pairs.
pub fn difference<'s, 't>(
    pairs: &[Pair],
    scope: &'s Scope<'s, 't>,
    t: &'t Term,
    u: &Term,
) -> Option<u32>
    ensures { result ≡ first_difference pairs.now (scope_typs scope.now) t.now u.now }
{
    match (&t.node, &u.node) {
        (
            TermNode::Abs { typ, body, .. },
            TermNode::Abs {
                typ: other,
                body: second,
                ..
            },
        ) => {
            if *typ == *other {
                let found = difference(pairs, &Scope::Under(typ, scope), body, second);
                further_on(pairs, scope, t, u, 1, found)
            } else {
                at_nodes(pairs, scope, t, u)
            }
        }
        (
            TermNode::App { fun, arg, .. },
            TermNode::App {
                fun: other,
                arg: second,
                ..
            },
        ) => {
            match difference(pairs, scope, fun, other) {
                Some(place) => unless_sides(pairs, scope, t, u, place.saturating_add(1)),
                None => {
                    let by = node_count(fun).saturating_add(1);
                    let found = difference(pairs, scope, arg, second);
                    further_on(pairs, scope, t, u, by, found)
                }
            }
        }
        _ => at_nodes(pairs, scope, t, u),
    }
}
