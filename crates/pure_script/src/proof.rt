//! Lemmas and their proofs.
ghost use Rattle.std.specs.Prelude.{◌≡◌, IfOk, [], ◌∷◌, ◌++◌};
ghost use Rattle.pure_grammar.specs.Theories.Lexeme as spec_lexeme;
ghost use Rattle.pure_grammar.specs.Theories.Reader as spec;
ghost use Rattle.pure_script.specs.Seen.{span, seen_step, seen_steps};
ghost use Rattle.pure_script.specs.Places.{seen_turn, seen_lemma, seen_goal, seen_proof, seen_proof_course, seen_method, goal_turn, any_turn};
ghost use Rattle.pure_script.specs.Lexemes.{seen_lexeme};

use crate::have::{add_have, after_have, at_have, at_have_text, begin_proof};
use crate::lexeme::{Lexeme, is_ident, is_sign, is_word, number_in, quote_in};
use crate::place::{
    Course, FactMethod, Goal, LemmaPlace, OpenHave, Place, ProofPlace, RestPlace, Subject, Turn,
    at_command, ident, moves_if, name, of_lemma,
};
use crate::theory::{Command, Span, Step};
use pure_grammar::{Keyword, Sign};
use pure_text::{Text, TextList};
use std::alloc::{AllocError, Global};
use std::mem;

/// Behind `lemma` or `theorem`.
pub(crate) fn at_lemma(alloc: Global, lexeme: Lexeme<'_>) -> Result<Turn, AllocError>
    ensures { IfOk result (λ turn. seen_turn turn ≡ any_turn spec.AtLemma (seen_lexeme lexeme.entry)) }
{
    match ident(alloc, lexeme)? {
        None => Ok(Turn::Refuses),
        Some(name) => Ok(Turn::Moves {
            place: of_lemma(LemmaPlace::AfterLemma { name }),
        }),
    }
}

/// Behind the name of the lemma.
pub(crate) fn after_lemma(name: Text, lexeme: Lexeme<'_>) -> Turn
    ensures { seen_turn result ≡ any_turn (spec.AfterLemma name) (seen_lexeme lexeme.entry) }
{
    let colon = is_sign(Sign::Colon, lexeme);
    moves_if(colon, of_lemma(LemmaPlace::AtLemmaText { name }))
}

/// The lemma of which nothing but its statement is read.
fn stated(alloc: Global, name: Text, prop: Span) -> Goal
    ensures { seen_lemma result ≡ record { name = name; prop = span prop; haves = [] } }
{
    let have = OpenHave {
        name: Text::from(Vec::new(alloc)),
        prop: Span { from: 0, to: 0 },
    };
    Goal {
        name,
        prop,
        haves: Vec::new(alloc),
        have,
        subject: Subject::Lemma,
        script: Vec::new(alloc),
        facts: TextList::empty(alloc),
    }
}

/// Behind the `:` of the lemma.
pub(crate) fn at_lemma_text(alloc: Global, name: Text, lexeme: Lexeme<'_>) -> Turn
    ensures { seen_turn result ≡ any_turn (spec.AtLemmaText name) (seen_lexeme lexeme.entry) }
{
    match quote_in(lexeme) {
        None => Turn::Refuses,
        Some(prop) => {
            let goal = stated(alloc, name, prop);
            let place = ProofPlace::AtProof;
            Turn::Moves {
                place: Place::AtRest {
                    place: RestPlace::InProof { goal, place },
                },
            }
        }
    }
}

/// The proof gets one more step.
fn step(goal: &mut Goal, step: Step) -> Result<(), AllocError>
    ensures goal { IfOk result (λ _. seen_goal goal.new ≡ seen_goal goal.old) }
    ensures script { IfOk result (λ _. seen_steps goal.new.script.items ≡ seen_steps goal.old.script.items ++ seen_step step ∷ []) }
{
    goal.script.push(step)?;
    Ok(())
}

/// The step of a method with its fact.
fn fact_step(method: FactMethod, fact: Text) -> Step
    ensures { seen_step result ≡ spec.fact_step (seen_method method) fact }
{
    match method {
        FactMethod::Rule => Step::Rule { fact },
        FactMethod::Erule => Step::Erule { fact },
        FactMethod::Drule => Step::Drule { fact },
    }
}

/// The lemma, whose proof is read.
pub(crate) fn proved(goal: Goal) -> Turn
    ensures { seen_turn result ≡ spec.proved (spec.OfLemma (seen_lemma goal)) (seen_steps goal.script.items) }
{
    let Goal {
        name,
        prop,
        haves,
        script,
        ..
    } = goal;
    Turn::Adds {
        command: Command::Lemma {
            name,
            prop,
            haves,
            script,
        },
        place: at_command(),
    }
}

/// A proof is read: that of the lemma ends it, that of a have puts the have behind the others.
fn after_proof(alloc: Global, goal: &mut Goal, place: &mut ProofPlace) -> Result<Course, AllocError>
    ensures { IfOk result (λ course. (l : spec_lexeme.Lexeme) → seen_proof_course course goal.new place.new l ≡ spec.proved (seen_goal goal.old) (seen_steps goal.old.script.items)) }
{
    match goal.subject {
        Subject::Lemma => Ok(Course::Ends),
        Subject::Have => {
            add_have(alloc, goal)?;
            *place = ProofPlace::AtProof;
            Ok(Course::Stays)
        }
    }
}

/// Behind a method; that of `by` closes the proof.
fn after_method(
    alloc: Global,
    goal: &mut Goal,
    place: &mut ProofPlace,
    last: bool,
) -> Result<Course, AllocError>
    ensures { IfOk result (λ course. (l : spec_lexeme.Lexeme) → seen_proof_course course goal.new place.new l ≡ spec.after_method (seen_goal goal.old) last (seen_steps goal.old.script.items)) }
{
    if !last {
        *place = ProofPlace::AtStep;
        return Ok(Course::Stays);
    }
    step(goal, Step::Close)?;
    step(goal, Step::Done)?;
    after_proof(alloc, goal, place)
}

/// Behind `apply` or `by`.
fn at_method(
    alloc: Global,
    goal: &mut Goal,
    place: &mut ProofPlace,
    last: bool,
    lexeme: Lexeme<'_>,
) -> Result<Course, AllocError>
    ensures { IfOk result (λ course. seen_proof_course course goal.new place.new (seen_lexeme lexeme.entry) ≡ goal_turn goal.old (spec.AtMethod last) (seen_lexeme lexeme.entry)) }
{
    if is_ident(b"assumption", lexeme) {
        step(goal, Step::Assumption)?;
        return Ok(after_method(alloc, goal, place, last)?);
    }
    if is_sign(Sign::OpenParenthesis, lexeme) {
        *place = ProofPlace::AtBasic { last };
        return Ok(Course::Stays);
    }
    Ok(Course::Refuses)
}

/// Where a method in parentheses begins.
fn at_basic(
    goal: &mut Goal,
    place: &mut ProofPlace,
    last: bool,
    lexeme: Lexeme<'_>,
) -> Result<Course, AllocError>
    ensures { IfOk result (λ course. seen_proof_course course goal.new place.new (seen_lexeme lexeme.entry) ≡ goal_turn goal.old (spec.AtBasic last) (seen_lexeme lexeme.entry)) }
{
    if is_ident(b"assumption", lexeme) {
        step(goal, Step::Assumption)?;
        *place = ProofPlace::AfterBasic { last };
        return Ok(Course::Stays);
    }
    if is_ident(b"rule", lexeme) {
        let method = FactMethod::Rule;
        *place = ProofPlace::AtFact { last, method };
        return Ok(Course::Stays);
    }
    if is_ident(b"erule", lexeme) {
        let method = FactMethod::Erule;
        *place = ProofPlace::AtFact { last, method };
        return Ok(Course::Stays);
    }
    if is_ident(b"drule", lexeme) {
        let method = FactMethod::Drule;
        *place = ProofPlace::AtFact { last, method };
        return Ok(Course::Stays);
    }
    if is_ident(b"unfold", lexeme) {
        *place = ProofPlace::AtUnfolded { last };
        return Ok(Course::Stays);
    }
    Ok(Course::Refuses)
}

/// Behind a method in parentheses.
fn after_basic(
    alloc: Global,
    goal: &mut Goal,
    place: &mut ProofPlace,
    last: bool,
    lexeme: Lexeme<'_>,
) -> Result<Course, AllocError>
    ensures { IfOk result (λ course. seen_proof_course course goal.new place.new (seen_lexeme lexeme.entry) ≡ goal_turn goal.old (spec.AfterBasic last) (seen_lexeme lexeme.entry)) }
{
    if is_sign(Sign::Comma, lexeme) {
        *place = ProofPlace::AtBasic { last };
        return Ok(Course::Stays);
    }
    if is_sign(Sign::CloseParenthesis, lexeme) {
        return Ok(after_method(alloc, goal, place, last)?);
    }
    Ok(Course::Refuses)
}

/// Where the fact of a method stands.
fn at_fact(
    alloc: Global,
    goal: &mut Goal,
    place: &mut ProofPlace,
    last: bool,
    method: FactMethod,
    lexeme: Lexeme<'_>,
) -> Result<Course, AllocError>
    ensures { IfOk result (λ course. seen_proof_course course goal.new place.new (seen_lexeme lexeme.entry) ≡ goal_turn goal.old (spec.AtFact last (seen_method method)) (seen_lexeme lexeme.entry)) }
{
    match name(alloc, lexeme)? {
        None => Ok(Course::Refuses),
        Some(fact) => {
            step(goal, fact_step(method, fact))?;
            *place = ProofPlace::AfterBasic { last };
            Ok(Course::Stays)
        }
    }
}

/// Behind `unfold`.
fn at_unfolded(
    alloc: Global,
    goal: &mut Goal,
    place: &mut ProofPlace,
    last: bool,
    lexeme: Lexeme<'_>,
) -> Result<Course, AllocError>
    ensures { IfOk result (λ course. seen_proof_course course goal.new place.new (seen_lexeme lexeme.entry) ≡ goal_turn goal.old (spec.AtUnfolded last) (seen_lexeme lexeme.entry)) }
{
    match name(alloc, lexeme)? {
        None => Ok(Course::Refuses),
        Some(fact) => {
            let mut facts = TextList::empty(alloc);
            facts.push(fact.bytes())?;
            goal.facts = facts;
            *place = ProofPlace::AfterUnfolded { last };
            Ok(Course::Stays)
        }
    }
}

/// Behind a fact to unfold by.
fn after_unfolded(
    alloc: Global,
    goal: &mut Goal,
    place: &mut ProofPlace,
    last: bool,
    lexeme: Lexeme<'_>,
) -> Result<Course, AllocError>
    ensures { IfOk result (λ course. seen_proof_course course goal.new place.new (seen_lexeme lexeme.entry) ≡ goal_turn goal.old (spec.AfterUnfolded last goal.old.facts) (seen_lexeme lexeme.entry)) }
{
    match name(alloc, lexeme)? {
        Some(fact) => {
            goal.facts.push(fact.bytes())?;
            *place = ProofPlace::AfterUnfolded { last };
            Ok(Course::Stays)
        }
        None => {
            let facts = mem::replace(&mut goal.facts, TextList::empty(alloc));
            step(goal, Step::Unfold { facts })?;
            after_basic(alloc, goal, place, last, lexeme)
        }
    }
}

/// Where a step of the proof begins.
fn at_step(
    alloc: Global,
    goal: &mut Goal,
    place: &mut ProofPlace,
    lexeme: Lexeme<'_>,
) -> Result<Course, AllocError>
    ensures { IfOk result (λ course. seen_proof_course course goal.new place.new (seen_lexeme lexeme.entry) ≡ goal_turn goal.old spec.AtStep (seen_lexeme lexeme.entry)) }
{
    if is_word(Keyword::Apply, lexeme) {
        *place = ProofPlace::AtMethod { last: false };
        return Ok(Course::Stays);
    }
    if is_word(Keyword::Prefer, lexeme) {
        *place = ProofPlace::AtNumber;
        return Ok(Course::Stays);
    }
    if is_word(Keyword::Defer, lexeme) {
        step(goal, Step::Defer)?;
        *place = ProofPlace::AtStep;
        return Ok(Course::Stays);
    }
    if is_word(Keyword::Done, lexeme) {
        step(goal, Step::Done)?;
        return Ok(after_proof(alloc, goal, place)?);
    }
    if is_word(Keyword::By, lexeme) {
        *place = ProofPlace::AtMethod { last: true };
        return Ok(Course::Stays);
    }
    Ok(Course::Refuses)
}

/// Where a have may stand, or the lemma's own proof begins.
fn at_proof(
    alloc: Global,
    version: u32,
    goal: &mut Goal,
    place: &mut ProofPlace,
    lexeme: Lexeme<'_>,
) -> Result<Course, AllocError>
    ensures { IfOk result (λ course. seen_proof_course course goal.new place.new (seen_lexeme lexeme.entry) ≡ spec.lemma_turn version (seen_lemma goal.old) (seen_lexeme lexeme.entry)) }
{
    if is_word(Keyword::Have, lexeme) {
        if version == 1 {
            return Ok(Course::Refuses);
        }
        *place = ProofPlace::AtHave;
        return Ok(Course::Stays);
    }
    begin_proof(alloc, goal, Subject::Lemma);
    at_step(alloc, goal, place, lexeme)
}

/// Behind `prefer`.
fn at_number(
    goal: &mut Goal,
    place: &mut ProofPlace,
    lexeme: Lexeme<'_>,
) -> Result<Course, AllocError>
    ensures { IfOk result (λ course. seen_proof_course course goal.new place.new (seen_lexeme lexeme.entry) ≡ goal_turn goal.old spec.AtNumber (seen_lexeme lexeme.entry)) }
{
    match number_in(lexeme) {
        None => Ok(Course::Refuses),
        Some(n) => {
            step(goal, Step::Prefer { n })?;
            *place = ProofPlace::AtStep;
            Ok(Course::Stays)
        }
    }
}

/// How a token of a lemma, behind its statement, goes on, with its place and what is read in place.
#[inline(never)]
pub(crate) fn proof_course(
    alloc: Global,
    version: u32,
    goal: &mut Goal,
    place: &mut ProofPlace,
    lexeme: Lexeme<'_>,
) -> Result<Course, AllocError>
    ensures { IfOk result (λ course. seen_proof_course course goal.new place.new (seen_lexeme lexeme.entry) ≡ spec.turn version (seen_proof goal.old place.old) (seen_lexeme lexeme.entry)) }
{
    match *place {
        ProofPlace::AtProof => at_proof(alloc, version, goal, place, lexeme),
        ProofPlace::AtHave => at_have(alloc, goal, place, lexeme),
        ProofPlace::AfterHave => Ok(after_have(goal, place, lexeme)),
        ProofPlace::AtHaveText => Ok(at_have_text(alloc, goal, place, lexeme)),
        ProofPlace::AtStep => at_step(alloc, goal, place, lexeme),
        ProofPlace::AtNumber => at_number(goal, place, lexeme),
        ProofPlace::AtMethod { last } => at_method(alloc, goal, place, last, lexeme),
        ProofPlace::AtBasic { last } => at_basic(goal, place, last, lexeme),
        ProofPlace::AfterBasic { last } => after_basic(alloc, goal, place, last, lexeme),
        ProofPlace::AtFact { last, method } => at_fact(alloc, goal, place, last, method, lexeme),
        ProofPlace::AtUnfolded { last } => at_unfolded(alloc, goal, place, last, lexeme),
        ProofPlace::AfterUnfolded { last } => after_unfolded(alloc, goal, place, last, lexeme),
    }
}
