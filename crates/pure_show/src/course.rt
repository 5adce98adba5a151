//! A proof, shown step by step.
ghost use Rattle.std.specs.Prelude.{◌≡◌, ◌++◌, ◌+◌, ◌<◌, Some, IfOk, OnOk, MatchOption, length};
ghost use Rattle.pure_places.specs.Seen.{seen_part};
ghost use Rattle.pure_row_places.specs.Cursors.{IsAt};
ghost use Rattle.pure_theory_run.specs.Method.Outcome.{IsProvable};
ghost use Rattle.pure_theory_run.specs.Method.Running.{Proves, shown_ending, steps_left};
ghost use Rattle.pure_show.specs.Answers.{IsCourseText, place_of};
ghost use Rattle.pure_show.specs.Lines as spec;
ghost use Rattle.pure_show.specs.Progress.{EndsShown, IsOnItsWay, IsPlaceWritten, IsStepWritten, seen_page};

use crate::named::Shown;
use crate::page::Page;
use crate::step::push_end;
use pure_places::Part;
use pure_text::Text;
use pure_theory_run::declare::Duty;
use pure_theory_run::method::{Outcome, Proving, Run, start, step_at};
use pure_typ::NamesByBase;
use std::alloc::{AllocError, Global};

/// Where the lemma's command stands: its part of the source.
#[derive(Clone, Copy)]
pub(crate) struct Stand<'s> {
    pub(crate) source: &'s [u8],
    pub(crate) part: &'s Part,
}

/// Appends the run's next step, and the state on which it is made.
fn push_run(
    alloc: Global,
    names: &NamesByBase,
    duty: &Duty,
    stand: &Stand<'_>,
    run: &Run,
    page: &mut Page,
) -> Result<(), AllocError>
    requires within { run.now.at < length duty.now.script }
    requires cursor { IsAt stand.now.source.now page.old.cursor }
    ensures written { OnOk result (IsStepWritten names.now duty.now (place_of stand.now.source.now (seen_part stand.now.part.now)) (seen_page page.old) (seen_page page.new) run.now) }
    ensures cursor { OnOk result (IsAt stand.now.source.now page.new.cursor) }
{
    let step = step_at(duty, run.at);
    page.push(
        alloc,
        names.names(),
        stand.source,
        stand.part,
        run.number,
        step,
        &run.goal.thm,
    )
}

/// Appends the next step of the proof, and the state on which it is made; nothing where no goal began.
fn push_here(
    alloc: Global,
    names: &NamesByBase,
    duty: &Duty,
    stand: &Stand<'_>,
    proving: &Proving,
    page: &mut Page,
) -> Result<(), AllocError>
    requires proves { Proves names.now duty.now proving.now }
    requires cursor { IsAt stand.now.source.now page.old.cursor }
    ensures written { OnOk result (IsPlaceWritten names.now duty.now (place_of stand.now.source.now (seen_part stand.now.part.now)) (seen_page page.old) (seen_page page.new) proving.now.place) }
    ensures cursor { OnOk result (IsAt stand.now.source.now page.new.cursor) }
{
    match proving.run() {
        Some(run) => push_run(alloc, names, duty, stand, run, page),
        None => Ok(()),
    }
}

/// Appends the next step of the proof with its state, and makes it: none where the proof goes on, else what comes of it.
fn turn(
    alloc: Global,
    names: &NamesByBase,
    duty: &Duty,
    _name: &[u8],
    stand: &Stand<'_>,
    proving: &mut Proving,
    page: &mut Page,
) -> Result<Option<Outcome>, AllocError>
    requires provable { IsProvable names.now duty.now }
    requires proves { Proves names.now duty.now proving.old }
    requires cursor { IsAt stand.now.source.now page.old.cursor }
    requires going { IsOnItsWay names.now duty.now _name.now (place_of stand.now.source.now (seen_part stand.now.part.now)) (seen_page page.old) proving.old.place }
    ensures proves { Proves names.now duty.now proving.new }
    ensures cursor { IfOk result (λ _. IsAt stand.now.source.now page.new.cursor) }
    ensures fewer { IfOk result (λ answer. MatchOption answer (steps_left duty.now proving.new + 1 ≡ steps_left duty.now proving.old) (λ _. Unit {0})) }
    ensures going { IfOk result (λ answer. MatchOption answer
        (IsOnItsWay names.now duty.now _name.now (place_of stand.now.source.now (seen_part stand.now.part.now)) (seen_page page.new) proving.new.place)
        (λ outcome. EndsShown names.now duty.now _name.now (place_of stand.now.source.now (seen_part stand.now.part.now)) (seen_page page.new) (shown_ending outcome))) }
{
    push_here(alloc, names, duty, stand, proving, page)?;
    proving.advance(alloc, names, duty)
}

/// Runs the proof, and appends each step with the state on which it is made.
fn push_course(
    alloc: Global,
    names: &NamesByBase,
    duty: &Duty,
    name: &[u8],
    stand: &Stand<'_>,
    page: &mut Page,
) -> Result<Outcome, AllocError>
    requires provable { IsProvable names.now duty.now }
    requires cursor { IsAt stand.now.source.now page.old.cursor }
    requires text { page.old.text.items ≡ spec.lemma_line names.now name.now duty.now.fixed }
    requires room { page.old.room ≡ Some spec.limit }
    ensures { IfOk result (λ outcome. EndsShown names.now duty.now name.now (place_of stand.now.source.now (seen_part stand.now.part.now)) (seen_page page.new) (shown_ending outcome)) }
{
    let mut proving = start(alloc, names, duty)?;
    'steps: loop {
        match turn(alloc, names, duty, name, stand, &mut proving, page)? {
            Some(outcome) => return Ok(outcome),
            None => {}
        }
    }
}

/// Whether the lemma is proved and each state fits.
fn is_clean(room: Option<usize>, outcome: &Outcome) -> bool
    ensures { result ≡ spec.is_clean room (shown_ending outcome.now) }
{
    match outcome {
        Outcome::Proved { .. } => room.is_some(),
        Outcome::Fault { .. } => false,
    }
}

/// The page with its end.
fn ended(alloc: Global, page: Page, outcome: &Outcome) -> Result<Shown, AllocError>
    ensures text { IfOk result (λ s. s.text ≡ page.text.items ++ spec.end_line (shown_ending outcome.now)) }
    ensures clean { IfOk result (λ s. s.clean ≡ spec.is_clean page.room (shown_ending outcome.now)) }
{
    let Page { text, room, .. } = page;
    let mut text = text;
    push_end(alloc, &mut text, outcome)?;
    Ok(Shown {
        text: Text::from(text),
        clean: is_clean(room, outcome),
    })
}

/// The course of the lemma's proof.
pub(crate) fn shown_course(
    alloc: Global,
    names: &NamesByBase,
    duty: &Duty,
    name: &[u8],
    stand: &Stand<'_>,
) -> Result<Shown, AllocError>
    requires { IsProvable names.now duty.now }
    ensures { IfOk result (λ s. IsCourseText names.now duty.now name.now (place_of stand.now.source.now (seen_part stand.now.part.now)) s.text s.clean) }
{
    let statement = duty.fixed(alloc)?;
    let mut page = Page::begin(alloc, names.names(), name, &statement)?;
    let outcome = push_course(alloc, names, duty, name, stand, &mut page)?;
    ended(alloc, page, &outcome)
}
