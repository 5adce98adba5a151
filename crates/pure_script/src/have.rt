//! Haves. The one that stands open is read in place, so that no token moves it.
ghost use Rattle.std.specs.Prelude.{◌≡◌, IfOk, []};
ghost use Rattle.pure_grammar.specs.Theories.Reader as spec;
ghost use Rattle.pure_script.specs.Seen.{span, seen_steps};
ghost use Rattle.pure_script.specs.Places.{seen_lemma, seen_subject, seen_goal, seen_proof_course, any_turn};
ghost use Rattle.pure_script.specs.Lexemes.{seen_lexeme};

use crate::lexeme::{Lexeme, is_sign, quote_in};
use crate::place::{Course, Goal, ProofPlace, Subject, ident};
use crate::theory::Have;
use pure_grammar::Sign;
use pure_text::Text;
use std::alloc::{AllocError, Global};
use std::mem;

/// A proof begins.
pub(crate) fn begin_proof(alloc: Global, goal: &mut Goal, subject: Subject)
    ensures goal { seen_goal goal.new ≡ seen_subject subject (seen_lemma goal.old) goal.old.have }
    ensures script { seen_steps goal.new.script.items ≡ [] }
{
    goal.subject = subject;
    goal.script = Vec::new(alloc);
}

/// The have that stands open, whose proof is read, comes behind the others.
pub(crate) fn add_have(alloc: Global, goal: &mut Goal) -> Result<(), AllocError>
    ensures { IfOk result (λ _. seen_lemma goal.new ≡ spec.with_have (seen_lemma goal.old) goal.old.have.name (span goal.old.have.prop) (seen_steps goal.old.script.items)) }
{
    let name = mem::replace(&mut goal.have.name, Text::from(Vec::new(alloc)));
    let prop = goal.have.prop;
    let script = mem::replace(&mut goal.script, Vec::new(alloc));
    goal.haves.push(Have { name, prop, script })?;
    Ok(())
}

/// Behind `have`.
pub(crate) fn at_have(
    alloc: Global,
    goal: &mut Goal,
    place: &mut ProofPlace,
    lexeme: Lexeme<'_>,
) -> Result<Course, AllocError>
    ensures { IfOk result (λ course. seen_proof_course course goal.new place.new (seen_lexeme lexeme.entry) ≡ any_turn (spec.AtHave (seen_lemma goal.old)) (seen_lexeme lexeme.entry)) }
{
    match ident(alloc, lexeme)? {
        None => Ok(Course::Refuses),
        Some(name) => {
            goal.have.name = name;
            *place = ProofPlace::AfterHave;
            Ok(Course::Stays)
        }
    }
}

/// Behind the name of the have.
pub(crate) fn after_have(goal: &Goal, place: &mut ProofPlace, lexeme: Lexeme<'_>) -> Course
    ensures { seen_proof_course result goal.now place.new (seen_lexeme lexeme.entry) ≡ any_turn (spec.AfterHave (seen_lemma goal.now) goal.now.have.name) (seen_lexeme lexeme.entry) }
{
    if is_sign(Sign::Colon, lexeme) {
        *place = ProofPlace::AtHaveText;
        return Course::Stays;
    }
    Course::Refuses
}

/// Behind the `:` of the have.
pub(crate) fn at_have_text(
    alloc: Global,
    goal: &mut Goal,
    place: &mut ProofPlace,
    lexeme: Lexeme<'_>,
) -> Course
    ensures { seen_proof_course result goal.new place.new (seen_lexeme lexeme.entry) ≡ any_turn (spec.AtHaveText (seen_lemma goal.old) goal.old.have.name) (seen_lexeme lexeme.entry) }
{
    match quote_in(lexeme) {
        None => Course::Refuses,
        Some(prop) => {
            goal.have.prop = prop;
            begin_proof(alloc, goal, Subject::Have);
            *place = ProofPlace::AtStep;
            Course::Stays
        }
    }
}
