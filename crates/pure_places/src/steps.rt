//! The haves of a lemma and the words of the steps of its proofs among the tokens.
ghost use Rattle.std.specs.Prelude.{◌≡◌, ◌++◌, [], ◌∷◌, ℕ, List, IfOk, OnOk, if◌then◌else◌};
ghost use Rattle.pure_text.specs.Lists.{Each};
ghost use Rattle.pure_grammar.specs.declared.token.Token as grammar;
ghost use Rattle.pure_grammar.specs.Tokens.Spelling.{IsSlice};
ghost use Rattle.pure_places.specs.Proofs as spec;
ghost use Rattle.pure_places.specs.Found.{found_proofs};
ghost use Rattle.pure_places.specs.Stages.{seen_stage, seen_proofs, seen_search, found_behind};

use crate::mark::{Mark, begins_step, calls_method, is_behind_proof, is_have, is_ident, mark_of};
use crate::parts::Part;
use pure_grammar::Token;
use std::alloc::{AllocError, Global};
use std::mem;

/// What was found: the haves that are read, and the steps so far of the proof at hand.
#[derive(Drop)]
pub(crate) struct Proofs {
    pub(crate) haves: Vec<Part>,
    pub(crate) steps: Vec<u32>,
}

/// A place in the search: in the proof of the have of this name, or in the lemma's own, where `by` stood, if it did, and whether
/// a method's word may come next; in front of a have's name; or behind the lemma.
#[derive(Clone, Copy)]
pub(crate) enum Stage {
    Within {
        have: Option<u32>,
        by: Option<u32>,
        called: bool,
    },
    Naming,
    Ended,
}

/// Nothing was found yet.
pub(crate) fn no_proofs(alloc: Global) -> Proofs
    ensures { seen_proofs result ≡ spec.no_proofs }
{
    Proofs {
        haves: Vec::new(alloc),
        steps: Vec::new(alloc),
    }
}

/// Where the lemma's own proof begins, or a have.
fn own_proof() -> Stage
    ensures { seen_stage result ≡ spec.own_proof }
{
    Stage::Within {
        have: None,
        by: None,
        called: false,
    }
}

/// Puts the place of `by` behind the others, if there is one.
fn put_by(steps: &mut Vec<u32>, by: Option<u32>) -> Result<(), AllocError>
    ensures { OnOk result (steps.new.items ≡ steps.old.items ++ spec.listed by) }
{
    if let Some(at) = by {
        steps.push(at)?;
    }
    Ok(())
}

/// Ends a proof: where it is that of a have, the have is read.
fn close(
    alloc: Global,
    found: &mut Proofs,
    have: Option<u32>,
    by: Option<u32>,
) -> Result<(), AllocError>
    ensures { OnOk result (seen_proofs found.new ≡ spec.closed have by (seen_proofs found.old)) }
{
    put_by(&mut found.steps, by)?;
    let Some(name) = have else {
        return Ok(());
    };
    let steps = mem::replace(&mut found.steps, Vec::new(alloc));
    found.haves.push(Part { name, steps })?;
    Ok(())
}

/// The stage behind the name of a have.
fn named_at(is_name: bool, at: u32) -> Stage
    ensures { seen_stage result ≡ spec.named_at is_name at }
{
    if is_name {
        return Stage::Within {
            have: Some(at),
            by: None,
            called: false,
        };
    }
    Stage::Ended
}

/// The stage behind `done`.
fn behind_done(have: Option<u32>) -> Stage
    ensures { seen_stage result ≡ spec.behind_done have }
{
    match have {
        None => Stage::Ended,
        Some(_) => own_proof(),
    }
}

/// Takes the word of a step or of a proof's end.
fn step_begun(
    alloc: Global,
    found: &mut Proofs,
    have: Option<u32>,
    mark: Mark,
    at: u32,
) -> Result<Stage, AllocError>
    ensures { IfOk result (λ stage. seen_search stage found.new ≡ spec.step_begun have (seen_proofs found.old) mark at) }
{
    let by = None;
    match mark {
        Mark::Apply => {
            let called = true;
            Ok(Stage::Within { have, by, called })
        }
        Mark::By => {
            let by = Some(at);
            let called = true;
            Ok(Stage::Within { have, by, called })
        }
        Mark::Move => {
            found.steps.push(at)?;
            let called = false;
            Ok(Stage::Within { have, by, called })
        }
        _ => {
            found.steps.push(at)?;
            close(alloc, found, have, by)?;
            Ok(behind_done(have))
        }
    }
}

/// Takes the word of a step or of a proof's end; behind the method of `by` a proof has ended.
fn begun(
    alloc: Global,
    found: &mut Proofs,
    have: Option<u32>,
    by: Option<u32>,
    mark: Mark,
    at: u32,
) -> Result<Stage, AllocError>
    ensures { IfOk result (λ stage. seen_search stage found.new ≡ spec.begun have by (seen_proofs found.old) mark at) }
{
    match by {
        None => step_begun(alloc, found, have, mark, at),
        Some(_) => {
            close(alloc, found, have, by)?;
            step_begun(alloc, found, None, mark, at)
        }
    }
}

/// Puts the word of a method, if it is one.
fn put_step(found: &mut Proofs, called: bool, at: u32) -> Result<(), AllocError>
    ensures { OnOk result (seen_proofs found.new ≡ (if called then spec.with_step (seen_proofs found.old) at else seen_proofs found.old)) }
{
    if called {
        found.steps.push(at)?;
    }
    Ok(())
}

/// Takes one more token of a proof.
fn met_within(
    alloc: Global,
    found: &mut Proofs,
    have: Option<u32>,
    by: Option<u32>,
    called: bool,
    mark: Mark,
    at: u32,
) -> Result<Stage, AllocError>
    ensures { IfOk result (λ stage. seen_search stage found.new ≡ spec.met_within have by called (seen_proofs found.old) mark at) }
{
    if is_have(mark) {
        close(alloc, found, have, by)?;
        return Ok(Stage::Naming);
    }
    if is_behind_proof(mark) {
        close(alloc, found, have, by)?;
        return Ok(Stage::Ended);
    }
    if begins_step(mark) {
        return begun(alloc, found, have, by, mark, at);
    }
    if is_ident(mark) {
        put_step(found, called, at)?;
        let called = false;
        return Ok(Stage::Within { have, by, called });
    }
    let called = calls_method(mark);
    Ok(Stage::Within { have, by, called })
}

/// Takes one more token.
fn met(
    alloc: Global,
    source: &[u8],
    token: Token,
    found: &mut Proofs,
    stage: Stage,
) -> Result<Stage, AllocError>
    requires { IsSlice source.now token }
    ensures { IfOk result (λ next. (more : List grammar.Token) → found_behind source.now next found.new more ≡ found_behind source.now stage found.old (token ∷ more)) }
{
    match stage {
        Stage::Within { have, by, called } => {
            let mark = mark_of(source, token);
            met_within(alloc, found, have, by, called, mark, token.from)
        }
        Stage::Naming => Ok(named_at(is_ident(mark_of(source, token)), token.from)),
        Stage::Ended => Ok(Stage::Ended),
    }
}

/// Ends the search at the end of the tokens.
fn finish(alloc: Global, found: &mut Proofs, stage: Stage) -> Result<(), AllocError>
    ensures { (source : List ℕ) → OnOk result (seen_proofs found.new ≡ found_behind source stage found.old []) }
{
    match stage {
        Stage::Within { have, by, .. } => close(alloc, found, have, by),
        Stage::Naming => Ok(()),
        Stage::Ended => Ok(()),
    }
}

/// Puts the haves of a lemma, whose text behind its statement begins these tokens, and the steps of its own proof.
pub(crate) fn put_proofs(
    alloc: Global,
    source: &[u8],
    tokens: &[Token],
    found: &mut Proofs,
) -> Result<(), AllocError>
    requires { Each (IsSlice source.now) tokens.now }
    ensures { OnOk result (seen_proofs found.new ≡ found_proofs source.now spec.own_proof (seen_proofs found.old) tokens.now) }
{
    let mut stage = own_proof();
    for token in tokens {
        match stage {
            Stage::Ended => return Ok(()),
            _ => stage = met(alloc, source, *token, found, stage)?,
        }
    }
    finish(alloc, found, stage)
}
