//! The bound variables that the arguments of a term in long form are.
ghost use Rattle.std.specs.Prelude.{◌≡◌, ◌<◌, ◌^◌, ◌++◌, IfOk, map, reverse};
ghost use Rattle.pure_definitions.specs.Terms.Term.{term_depth};
ghost use Rattle.pure_definitions.specs.Reduction.Eta.{abstraction_count};
ghost use Rattle.pure_unify_definitions.specs.Fronts as fronts;
ghost use Rattle.pure_pattern_laws.specs.Putting as putting;

use pure_term::{Term, TermNode};
use pure_unify_sides::head;
use std::alloc::AllocError;

/// How many abstractions are outermost in the term.
fn abstractions_of(t: &Term) -> u32
    requires { term_depth t.now < 2 ^ 32 }
    ensures { result ≡ abstraction_count t.now }
{
    match &t.node {
        TermNode::Abs { body, .. } => 1 + abstractions_of(body),
        _ => 0,
    }
}

/// The number of a bound variable.
fn bound_place(t: &Term) -> u32
    ensures { result ≡ putting.bound_place t.now }
{
    match &t.node {
        TermNode::Bound { place } => *place,
        _ => 0,
    }
}

/// The bound variable that an argument in long form is up to eta steps.
fn written_place(t: &Term) -> u32
    requires { term_depth t.now < 2 ^ 32 }
    ensures { result ≡ putting.place_of t.now }
{
    bound_place(head(t)).saturating_sub(abstractions_of(t))
}

/// Adds the places of the term's arguments, right to left.
pub(crate) fn add_places(t: &Term, places: &mut Vec<u32>) -> Result<(), AllocError>
    requires { term_depth t.now < 2 ^ 32 }
    ensures { IfOk result (λ _. places.new.items ≡ places.old.items ++ reverse (map putting.place_of (fronts.arguments t.now))) }
{
    match &t.node {
        TermNode::App { fun, arg, .. } => {
            places.push(written_place(arg))?;
            add_places(fun, places)
        }
        _ => Ok(()),
    }
}
