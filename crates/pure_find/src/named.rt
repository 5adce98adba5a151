//! The lemma of a session that has some name, and what is found for it.
ghost use Rattle.std.specs.Prelude.{◌≡◌, [], IfOk, None};
ghost use Rattle.pure_theory_run.specs.Method.Outcome.{IsProvable};
ghost use Rattle.pure_theory_run.specs.SessionLaws.Loaded.{IsLoadedSession};
ghost use Rattle.pure_find.specs.Answers as spec;
ghost use Rattle.pure_find.specs.Facts.{facts_of};
ghost use Rattle.pure_find.specs.Findings.{IsFinding};

use crate::facts::facts_found;
use crate::finding::Finding;
use crate::long::long_of;
use pure_text::Text;
use pure_theory_run::declare::Duty;
use pure_theory_run::session_meaning::laws::{forks_provable, statements_bind_forks};
use pure_theory_run::theory::Theory;
use pure_theory_run::{Checker, lemma_named};
use pure_typ::NamesByBase;
use std::alloc::{AllocError, Global};

/// What is found for a lemma as text, and whether some fact matches.
#[derive(Drop)]
pub struct Found {
    pub text: Text,
    pub clean: bool,
}

/// Says that there is no such lemma.
fn no_lemma(alloc: Global) -> Result<Found, AllocError>
    ensures { IfOk result (λ found. spec.IsSaidOf [] None found.text found.clean) }
{
    Ok(Found {
        text: Text::make(alloc, b"no lemma\n")?,
        clean: false,
    })
}

/// The theory before the lemma.
fn theory_of(duty: &Duty) -> &Theory
    ensures { result.now ≡ duty.now.content }
{
    &duty.stage
}

/// The facts of the lemma's content, compared with its statement.
fn finding_for(alloc: Global, names: &NamesByBase, duty: &Duty) -> Result<Finding, AllocError>
    requires { IsProvable names.now duty.now }
    ensures { IfOk result (IsFinding duty.now.fixed (facts_of names.now duty.now.content)) }
{
    let theory = theory_of(duty);
    theory.content_is_sound();
    let statement = duty.fixed(alloc)?;
    let long = long_of(alloc, &statement)?;
    facts_found(alloc, names, theory, &long)
}

/// What is found for the lemma.
fn found_for(alloc: Global, names: &NamesByBase, duty: &Duty) -> Result<Found, AllocError>
    requires { IsProvable names.now duty.now }
    ensures { IfOk result (λ found. spec.IsFoundText names.now duty.now found.text found.clean) }
{
    let finding = finding_for(alloc, names, duty)?;
    let clean = finding.is_clean();
    let text = finding.finish()?;
    Ok(Found { text, clean })
}

/// Of which facts the statement of the lemma with this full name, among those that the session's theories bind, is an instance,
/// as unification of patterns tells (T. Nipkow, Functional unification of higher-order patterns, 1993): a line for each fact
/// that matches or may match, and their numbers; or that there is no such lemma, as one that is refused. Its proof isn't
/// looked at, nor whether a lemma that is a fact has one.
///
/// # Errors
///
/// Want of memory alone.
pub fn find_lemma(alloc: Global, checker: &Checker, name: &[u8]) -> Result<Found, AllocError>
    requires { IsLoadedSession checker.now.texts checker.now.theories }
    ensures { IfOk result (λ found. spec.IsAnswer checker.now.texts checker.now.theories name.now found.text found.clean) }
{
    forks_provable();
    statements_bind_forks();
    let statements = checker.statements()?;
    let names = checker.names();
    match lemma_named(names, statements.duties.as_slice(), name) {
        None => no_lemma(alloc),
        Some(duty) => found_for(alloc, names, duty),
    }
}
