//! The lemma of a session that has some name, shown.
ghost use Rattle.std.specs.Prelude.{◌≡◌, ◌<◌, [], IfOk, None, Some};
ghost use Rattle.pure_graph.specs.Order as order;
ghost use Rattle.pure_places.specs.Seen.{seen_command};
ghost use Rattle.pure_row_places.specs.Scans.{seen_scan};
ghost use Rattle.pure_theory_run.specs.Method.Outcome.{IsProvable};
ghost use Rattle.pure_theory_run.specs.SessionLaws.Loaded.{IsLoadedSession};
ghost use Rattle.pure_theory_run.specs.SessionMeaning.Verdicts.{IsTheoryAt};
ghost use Rattle.pure_show.specs.Answers as spec;

use crate::course::{Stand, shown_course};
use pure_places::{CommandParts, Part, part_at};
use pure_row_places::{Scan, scanned};
use pure_text::Text;
use pure_theory_run::declare::Duty;
use pure_theory_run::session_meaning::laws::{forks_provable, forks_stand, statements_bind_forks};
use pure_theory_run::{Checker, lemma_named};
use pure_typ::NamesByBase;
use std::alloc::{AllocError, Global};

/// What is shown, and whether it is clean.
#[derive(Drop)]
pub struct Shown {
    pub text: Text,
    pub clean: bool,
}

/// Says that there is no such lemma.
fn no_lemma(alloc: Global) -> Result<Shown, AllocError>
    ensures { IfOk result (λ s. spec.IsShown [] [] [] None s.text s.clean) }
{
    Ok(Shown {
        text: Text::make(alloc, b"no lemma\n")?,
        clean: false,
    })
}

/// A command without places.
fn no_command(alloc: Global) -> CommandParts
    ensures { seen_command result ≡ spec.no_command }
{
    CommandParts {
        haves: Vec::new(alloc),
        own: Part {
            name: 0,
            steps: Vec::new(alloc),
        },
    }
}

/// The number of the lemma's theory.
fn theory_number(duty: &Duty) -> u32
    ensures { result ≡ duty.now.label.theory }
{
    duty.label.theory
}

/// The number of the lemma's command.
fn command_number(duty: &Duty) -> u32
    ensures { result ≡ duty.now.label.command }
{
    duty.label.command
}

/// The number of the lemma or have among the parts of its command.
fn part_number(duty: &Duty) -> u32
    ensures { result ≡ duty.now.label.part }
{
    duty.label.part
}

/// The course of the lemma's proof, with the places of its steps in the scanned theory.
fn shown_in(
    alloc: Global,
    names: &NamesByBase,
    duty: &Duty,
    name: &[u8],
    scan: &Scan,
    none: &CommandParts,
) -> Result<Shown, AllocError>
    requires provable { IsProvable names.now duty.now }
    requires none { seen_command none.now ≡ spec.no_command }
    ensures { IfOk result (λ s. spec.IsCourseText names.now duty.now name.now (spec.place_of (seen_scan scan.now).source (spec.labelled_part (seen_scan scan.now).places.commands duty.now.label)) s.text s.clean) }
{
    let commands = scan.places.commands.as_slice();
    let stand = Stand {
        source: scan.source.bytes(),
        part: part_at(commands, command_number(duty), part_number(duty), none),
    };
    shown_course(alloc, names, duty, name, &stand)
}

/// The course of the lemma's proof, with the places of its steps in its theory's source.
fn shown_lemma(
    alloc: Global,
    checker: &Checker,
    duty: &Duty,
    name: &[u8],
) -> Result<Shown, AllocError>
    requires provable { IsProvable checker.now.texts duty.now }
    requires theory { (theory : order.Loaded) × IsTheoryAt checker.now.theories duty.now.label.theory theory }
    ensures { IfOk result (λ s. spec.IsShown checker.now.texts checker.now.theories name.now (Some duty.now) s.text s.clean) }
{
    let theory = checker.theory(theory_number(duty));
    let scan = scanned(alloc, &theory.name, &theory.source)?;
    let none = no_command(alloc);
    shown_in(alloc, checker.names(), duty, name, &scan, &none)
}

/// What is shown of the lemma with this full name among those that the session's theories bind: the course of its proof, or
/// that there is no such lemma, as one that is refused.
///
/// # Errors
///
/// Want of memory alone.
pub fn show_lemma(alloc: Global, checker: &Checker, name: &[u8]) -> Result<Shown, AllocError>
    requires { IsLoadedSession checker.now.texts checker.now.theories }
    ensures { IfOk result (λ s. spec.IsAnswer checker.now.texts checker.now.theories name.now s.text s.clean) }
{
    forks_provable();
    forks_stand();
    statements_bind_forks();
    let statements = checker.statements()?;
    match lemma_named(checker.names(), statements.duties.as_slice(), name) {
        None => no_lemma(alloc),
        Some(duty) => shown_lemma(alloc, checker, duty, name),
    }
}
