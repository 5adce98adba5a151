//! Facts by the names by which steps call them.
ghost use Rattle.std.specs.Prelude.{◌≡◌, ◌++◌, ◌∷◌, [], IfOk, OnOk, Ok, Err, IfErr};
ghost use Rattle.pure_lookup.specs.Laws.{IsInSession};
ghost use Rattle.pure_declare.specs.Theory.FactView.{seen_fact};
ghost use Rattle.pure_method.specs.Facts as facts;
ghost use Rattle.pure_method.specs.Facts.{IsFact};
ghost use Rattle.pure_method.specs.Taking.{IsFactAnswer, AreFactsAnswer};

use pure_declare::theory::{Fact, Theory};
use pure_resolve::goal_steps::StepFault;
use pure_script::TextList;
use pure_term::{Label, Name, Term};
use pure_theorem::{Thm, built_term};
use pure_typ::NamesByBase;
use std::alloc::{AllocError, Global};

/// The proposition as a theorem that rests on nothing.
fn alone(alloc: Global, prop: Term) -> Thm
    ensures { result ≡ facts.theorem prop [] }
{
    Thm {
        hyps: Vec::new(alloc),
        pairs: Vec::new(alloc),
        prop,
        rests: Vec::new(alloc),
    }
}

/// The proposition as a theorem that rests on the promise of this label.
fn promised(alloc: Global, label: Label, prop: Term) -> Result<Thm, AllocError>
    ensures { IfOk result (λ th. th ≡ facts.theorem prop (label ∷ [])) }
{
    let rests = Vec::from_slice(alloc, &[label])?;
    Ok(Thm {
        hyps: Vec::new(alloc),
        pairs: Vec::new(alloc),
        prop,
        rests,
    })
}

/// The fact as a theorem.
fn theorem_of(alloc: Global, fact: Fact) -> Result<Thm, AllocError>
    ensures { IfOk result (IsFact (seen_fact fact)) }
{
    match fact {
        Fact::Built { which } => {
            let prop = built_term(alloc, which)?;
            Ok(alone(alloc, prop))
        }
        Fact::Axiom { prop, .. } => Ok(alone(alloc, prop)),
        Fact::Promised { label, prop, .. } => promised(alloc, label, prop),
    }
}

/// The fact that is written so in a proof in the lemma.
pub fn found_fact(
    alloc: Global,
    names: &NamesByBase,
    theory: &Theory,
    lemma: Name,
    written: &[u8],
) -> Result<Thm, StepFault>
    requires { IsInSession names.now theory.now }
    ensures { IsFactAnswer names.now theory.now lemma written.now result }
{
    match theory.find_local(names, written, lemma)? {
        None => Err(StepFault::UnknownFact),
        Some(fact) => Ok(theorem_of(alloc, fact)?),
    }
}

/// Puts the fact behind those of the list.
fn put(list: &mut Vec<Thm>, fact: Thm) -> Result<(), AllocError>
    ensures { OnOk result (list.new.items ≡ list.old.items ++ fact ∷ []) }
{
    list.push(fact)?;
    Ok(())
}

/// The facts that are written so in a proof in the lemma, in order.
pub fn found_facts(
    alloc: Global,
    names: &NamesByBase,
    theory: &Theory,
    lemma: Name,
    written: &TextList,
) -> Result<Vec<Thm>, StepFault>
    requires { IsInSession names.now theory.now }
    ensures facts { IfOk result (λ found. AreFactsAnswer names.now theory.now lemma written.now (Ok found.items)) }
    ensures fault { IfErr result (λ fault. AreFactsAnswer names.now theory.now lemma written.now (Err fault)) }
{
    let mut found = Vec::new(alloc);
    for place in 0..written.len() {
        match found_fact(alloc, names, theory, lemma, written.at(place)) {
            Ok(fact) => put(&mut found, fact)?,
            Err(fault) => return Err(fault),
        }
    }
    Ok(found)
}

/// Lets the fact go.
pub fn discard(_fact: Thm) {}

/// Lets the facts go.
pub fn discard_all(_facts: Vec<Thm>) {}
