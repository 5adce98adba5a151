//! Propositions of implication, and their decisions.
ghost use Rattle.std.specs.Prelude.{IfOk, IfSome};
ghost use Rattle.pure_kernel.specs.Definitions.Declarations.Certified.{IsCertified};
ghost use Rattle.pure_kernel.specs.Logic.Derivable.{IsDerivable};

use crate::lines::print_line;
use crate::stop::Stop;
use pure_kernel::{NamesByBase, Term, Theory, Thm, has_theory_content, proposition_of_text};
use pure_tauto::decide;
use std::alloc::{AllocError, Global};

/// `(A ==> B) ==> (B ==> C) ==> .. ==> A ==> U`, with twenty links.
fn chain(alloc: Global) -> Result<Vec<u8>, AllocError> {
    let mut text = Vec::new(alloc);
    for link in 0..20_u8 {
        text.extend_from_slice(&[b'(', b'A' + link])?;
        text.extend_from_slice(b" ==> ")?;
        text.extend_from_slice(&[b'B' + link])?;
        text.extend_from_slice(b") ==> ")?;
    }
    text.extend_from_slice(b"A ==> U")?;
    Ok(text)
}

/// A theorem that states the goal, if `decide` finds one.
fn decided(alloc: Global, thy: &Theory, goal: &Term) -> Result<Option<Thm>, Stop>
    requires { IsCertified thy.now.declarations goal.now }
    ensures { IfOk result (λ found. IfSome found (IsDerivable thy.now)) }
{
    has_theory_content(thy);
    let found = decide(alloc, thy, goal)?;
    Ok(found)
}

/// Decides the certified goal, and prints the theorem, or that none was found.
fn decide_certified<R: Print>(
    rt: &R,
    alloc: Global,
    thy: &Theory,
    names: &NamesByBase,
    name: &str,
    goal: &Term,
) -> Result<(), Stop>
    requires { IsCertified thy.now.declarations goal.now }
{
    match decided(alloc, thy, goal)? {
        Some(th) => print_line(rt, alloc, names, name, &th.prop)?,
        None => println!(rt; "{name}: none")?,
    }
    Ok(())
}

/// The same of a goal that is to be certified first; else the certificate's fault is printed.
pub(crate) fn decide_goal<R: Print>(
    rt: &R,
    alloc: Global,
    thy: &Theory,
    names: &NamesByBase,
    name: &str,
    goal: &Term,
) -> Result<(), Stop> {
    match thy.certify(goal) {
        Ok(_typ) => decide_certified(rt, alloc, thy, names, name, goal)?,
        Err(fault) => println!(rt; "{name}: not certified, {fault:?}")?,
    }
    Ok(())
}

/// The same of the goal that the text says.
fn decide_text<R: Print>(
    rt: &R,
    alloc: Global,
    thy: &Theory,
    names: &NamesByBase,
    name: &str,
    text: &[u8],
) -> Result<(), Stop> {
    let goal = proposition_of_text(alloc, thy, names, text)?;
    decide_goal(rt, alloc, thy, names, name, &goal)
}

/// Decides S, K, composition, a chain and Peirce's law, which has no proof in minimal logic.
pub(crate) fn decide_all<R: Print>(
    rt: &R,
    alloc: Global,
    thy: &Theory,
    names: &NamesByBase,
) -> Result<(), Stop> {
    let chain = chain(alloc)?;
    let s = b"(A ==> B ==> C) ==> (A ==> B) ==> A ==> C";
    let composition = b"(B ==> C) ==> (A ==> B) ==> A ==> C";
    decide_text(rt, alloc, thy, names, "S", s)?;
    decide_text(rt, alloc, thy, names, "K", b"A ==> B ==> A")?;
    decide_text(rt, alloc, thy, names, "composition", composition)?;
    decide_text(rt, alloc, thy, names, "chain", &chain)?;
    decide_text(rt, alloc, thy, names, "Peirce", b"((A ==> B) ==> A) ==> A")?;
    Ok(())
}
