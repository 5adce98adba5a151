//! Theorems of the rows. What a call is given isn't let go where it failed, since each such path is proved.
ghost use Rattle.std.specs.Prelude.{◌≡◌, IfSome};
ghost use Rattle.pure_logic.specs.Derivable.{IsDerivable};

use crate::names::label_at;
use crate::session::variable;
use pure_rules::{assume, implies_elim, implies_intro, promise};
use pure_theorem::Thm;
use pure_theory::Theory;
use std::alloc::Global;
use std::mem;

/// What the promise at the place states, resting on it.
pub(crate) fn resting(alloc: Global, theory: &Theory, place: u32) -> Option<Thm>
    ensures { IfSome result (IsDerivable theory.now) }
{
    match promise(alloc, theory, label_at(place)) {
        Ok(th) => Some(th),
        Err(_) => None,
    }
}

/// `?A` from itself.
pub(crate) fn assumed(alloc: Global, theory: &Theory) -> Option<Thm>
    ensures { IfSome result (IsDerivable theory.now) }
{
    let prop = variable(alloc);
    let Ok(_typ) = theory.certify(&prop) else {
        return None;
    };
    match assume(alloc, theory, &prop) {
        Ok(th) => Some(th),
        Err(_) => None,
    }
}

/// The theorem behind `?A`, which isn't among its hypotheses any more.
fn discharged(alloc: Global, theory: &Theory, th: &Thm) -> Option<Thm>
    requires { IsDerivable theory.now th.now }
    ensures { IfSome result (IsDerivable theory.now) }
{
    let prop = variable(alloc);
    theory.content_is_sound();
    let Ok(_typ) = theory.certify(&prop) else {
        return None;
    };
    match implies_intro(alloc, theory, &prop, th) {
        Ok(th) => Some(th),
        Err(_) => None,
    }
}

/// What the first shows of the second.
fn eliminated(alloc: Global, theory: &Theory, first: &Thm, second: &Thm) -> Option<Thm>
    requires first { IsDerivable theory.now first.now }
    requires second { IsDerivable theory.now second.now }
    ensures { IfSome result (IsDerivable theory.now) }
{
    theory.content_is_sound();
    match implies_elim(alloc, theory, first, second) {
        Ok(th) => Some(th),
        Err(_) => None,
    }
}

/// `?A ==> ?A`, resting on the promise at the place.
fn implied(alloc: Global, theory: &Theory, place: u32) -> Option<Thm>
    ensures { IfSome result (IsDerivable theory.now) }
{
    let th = resting(alloc, theory, place)?;
    let implication = discharged(alloc, theory, &th);
    mem::forget(th);
    implication
}

/// What the theorem shows of what the promise at the place states.
fn eliminated_by(alloc: Global, theory: &Theory, first: &Thm, place: u32) -> Option<Thm>
    requires { IsDerivable theory.now first.now }
    ensures { IfSome result (IsDerivable theory.now) }
{
    let premise = resting(alloc, theory, place)?;
    let th = eliminated(alloc, theory, first, &premise);
    mem::forget(premise);
    th
}

/// `?A`, resting on the promises at both places.
pub(crate) fn resting_on_both(
    alloc: Global,
    theory: &Theory,
    first: u32,
    second: u32,
) -> Option<Thm>
    ensures { IfSome result (IsDerivable theory.now) }
{
    let implication = implied(alloc, theory, first)?;
    let th = eliminated_by(alloc, theory, &implication, second);
    mem::forget(implication);
    th
}

/// What the theorem shows of `?A` from itself.
fn eliminated_by_itself(alloc: Global, theory: &Theory, first: &Thm) -> Option<Thm>
    requires { IsDerivable theory.now first.now }
    ensures { IfSome result (IsDerivable theory.now) }
{
    let premise = assumed(alloc, theory)?;
    let th = eliminated(alloc, theory, first, &premise);
    mem::forget(premise);
    th
}

/// `?A` from itself, resting on the promise at the place.
pub(crate) fn assumed_resting(alloc: Global, theory: &Theory, place: u32) -> Option<Thm>
    ensures { IfSome result (IsDerivable theory.now) }
{
    let implication = implied(alloc, theory, place)?;
    let th = eliminated_by_itself(alloc, theory, &implication);
    mem::forget(implication);
    th
}

/// `?A ==> ?A`
pub(crate) fn trivial(alloc: Global, theory: &Theory) -> Option<Thm>
    ensures { IfSome result (IsDerivable theory.now) }
{
    let th = assumed(alloc, theory)?;
    let implication = discharged(alloc, theory, &th);
    mem::forget(th);
    implication
}
