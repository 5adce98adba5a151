//! The axioms that the steps of a proof name, in the lemma that is proved or in which the statement stands.
ghost use Rattle.std.specs.Prelude.{◌≡◌, ◌⊎◌, MatchOption, IfOk, OnOk};
ghost use Rattle.pure_text.specs.Lists.{AnyOf};
ghost use Rattle.pure_definitions.specs.Terms.Term.{Term};
ghost use Rattle.pure_logic.specs.Content.{IsContent};
ghost use Rattle.pure_lookup.specs.LookUps.{AxiomFact};
ghost use Rattle.pure_lookup.specs.Laws.{IsInSession};
ghost use Rattle.pure_script.specs.Seen.{seen_step, seen_steps};
ghost use Rattle.pure_table.specs.Theory.FactView.{seen_fact};
ghost use Rattle.pure_table.specs.Method.Facts.{named_facts};
ghost use Rattle.pure_citations.specs.Named.{MeansAxiom, NamesAxiom, IsNoAxiom, IsAxiomWritten};
ghost use Rattle.pure_citations.specs.Reached.{Gains};

use crate::rows::put;
use pure_script::{Step, TextList};
use pure_table::theory::{Fact, Theory};
use pure_typ::{Name, NamesByBase};
use std::alloc::AllocError;

/// The name of the axiom that the fact is, if it is one.
fn axiom_of(fact: &Fact) -> Option<Name>
    ensures { MatchOption result (IsNoAxiom (seen_fact fact.now)) (λ name. (A : Term) × (seen_fact fact.now ≡ AxiomFact name A)) }
{
    match fact {
        Fact::Axiom { name, .. } => Some(*name),
        Fact::Built { .. } => None,
        Fact::Promised { .. } => None,
    }
}

/// Lets the fact go.
fn discard(_fact: Fact) {}

/// Puts the name into the row.
pub(crate) fn put_name(cited: &mut Vec<u64>, name: Name) -> Result<(), AllocError>
    ensures { OnOk result (Gains (λ n. n ≡ name) cited.old.items cited.new.items) }
{
    put(cited, name.0 as usize)?;
    Ok(())
}

/// The name of the axiom that is written so in a proof in the lemma, if it is one.
fn written_axiom(
    names: &NamesByBase,
    theory: &Theory,
    lemma: Name,
    written: &[u8],
) -> Result<Option<Name>, AllocError>
    requires session { IsInSession names.now theory.now }
    requires content { IsContent theory.now }
    ensures { IfOk result (IsAxiomWritten names.now theory.now lemma written.now) }
{
    match theory.find_local(names, written, lemma)? {
        Some(fact) => {
            let name = axiom_of(&fact);
            discard(fact);
            Ok(name)
        }
        None => Ok(None),
    }
}

/// Puts in the axiom that is written so, if it is one.
fn put_fact(
    names: &NamesByBase,
    theory: &Theory,
    lemma: Name,
    written: &[u8],
    cited: &mut Vec<u64>,
) -> Result<(), AllocError>
    requires session { IsInSession names.now theory.now }
    requires content { IsContent theory.now }
    ensures { OnOk result (Gains (λ n. MeansAxiom names.now theory.now lemma n written.now) cited.old.items cited.new.items) }
{
    match written_axiom(names, theory, lemma, written)? {
        Some(name) => {
            put_name(cited, name)?;
            Ok(())
        }
        None => Ok(()),
    }
}

/// Puts in the axioms that are written so.
fn put_facts(
    names: &NamesByBase,
    theory: &Theory,
    lemma: Name,
    written: &TextList,
    cited: &mut Vec<u64>,
) -> Result<(), AllocError>
    requires session { IsInSession names.now theory.now }
    requires content { IsContent theory.now }
    ensures { OnOk result (Gains (λ n. AnyOf (MeansAxiom names.now theory.now lemma n) written.now) cited.old.items cited.new.items) }
{
    for place in 0..written.len() {
        put_fact(names, theory, lemma, written.at(place), cited)?;
    }
    Ok(())
}

/// Puts in the axiom that a step names alone.

fn put_alone(
    names: &NamesByBase,
    theory: &Theory,
    lemma: Name,
    written: &[u8],
    cited: &mut Vec<u64>,
) -> Result<(), AllocError>
    requires session { IsInSession names.now theory.now }
    requires content { IsContent theory.now }
    ensures { OnOk result (Gains (λ n. MeansAxiom names.now theory.now lemma n written.now ⊎ ⊥) cited.old.items cited.new.items) }
{
    put_fact(names, theory, lemma, written, cited)?;
    Ok(())
}

/// Puts in the axioms that the step names.

fn put_step(
    names: &NamesByBase,
    theory: &Theory,
    lemma: Name,
    step: &Step,
    cited: &mut Vec<u64>,
) -> Result<(), AllocError>
    requires session { IsInSession names.now theory.now }
    requires content { IsContent theory.now }
    ensures { OnOk result (Gains (λ n. AnyOf (MeansAxiom names.now theory.now lemma n) (named_facts (seen_step step.now))) cited.old.items cited.new.items) }
{
    match step {
        Step::Rule { fact } => put_alone(names, theory, lemma, fact.bytes(), cited),
        Step::Erule { fact } => put_alone(names, theory, lemma, fact.bytes(), cited),
        Step::Drule { fact } => put_alone(names, theory, lemma, fact.bytes(), cited),
        Step::Unfold { facts } => put_facts(names, theory, lemma, facts, cited),
        Step::Assumption => Ok(()),
        Step::Prefer { .. } => Ok(()),
        Step::Defer => Ok(()),
        Step::Close => Ok(()),
        Step::Done => Ok(()),
    }
}

/// Puts in the axioms that the steps name.
pub(crate) fn put_script(
    names: &NamesByBase,
    theory: &Theory,
    lemma: Name,
    script: &[Step],
    cited: &mut Vec<u64>,
) -> Result<(), AllocError>
    requires session { IsInSession names.now theory.now }
    requires content { IsContent theory.now }
    ensures { OnOk result (Gains (λ n. NamesAxiom names.now theory.now lemma (seen_steps script.now) n) cited.old.items cited.new.items) }
{
    for step in script {
        put_step(names, theory, lemma, step, cited)?;
    }
    Ok(())
}
