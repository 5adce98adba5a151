//! Lines of steps, and how proofs end.
ghost use Rattle.std.specs.Prelude.{◌≡◌, ◌++◌, ◌∷◌, OnOk};
ghost use Rattle.std.specs.Fmt.{decimal};
ghost use Rattle.pure_script.specs.Seen.{seen_step};
ghost use Rattle.pure_theory_run.specs.Method.Outcome.{is_numbered};
ghost use Rattle.pure_theory_run.specs.Method.Running.{shown_ending};
ghost use Rattle.pure_show.specs.Lines as spec;

use pure_promise::fault_words;
use pure_script::{Step, TextList};
use pure_theory_run::method::{Outcome, StepFault};
use std::alloc::{AllocError, Global};

/// Appends the number in decimal digits.
pub(crate) fn push_number(
    alloc: Global,
    text: &mut Vec<u8>,
    number: usize,
) -> Result<(), AllocError>
    ensures { OnOk result (text.new.items ≡ text.old.items ++ decimal number) }
{
    text.extend_from_slice(number.to_string(alloc)?.as_bytes())
}

/// Appends a name behind a blank.
fn push_name(text: &mut Vec<u8>, name: &[u8]) -> Result<(), AllocError>
    ensures { OnOk result (text.new.items ≡ text.old.items ++ 32 ∷ name.now) }
{
    text.push(b' ')?;
    text.extend_from_slice(name)
}

/// Appends each name behind a blank.
fn push_names(text: &mut Vec<u8>, names: &TextList) -> Result<(), AllocError>
    ensures { OnOk result (text.new.items ≡ text.old.items ++ spec.names_text names.now) }
{
    for place in 0..names.len() {
        push_name(text, names.at(place))?;
    }
    Ok(())
}

/// Appends a word and a name.
fn push_word(text: &mut Vec<u8>, word: &[u8], name: &[u8]) -> Result<(), AllocError>
    ensures { OnOk result (text.new.items ≡ text.old.items ++ (word.now ++ name.now)) }
{
    text.extend_from_slice(word)?;
    text.extend_from_slice(name)
}

/// Appends the step as it is written.
fn push_words(alloc: Global, text: &mut Vec<u8>, step: &Step) -> Result<(), AllocError>
    ensures { OnOk result (text.new.items ≡ text.old.items ++ spec.step_words (seen_step step.now)) }
{
    match step {
        Step::Rule { fact } => push_word(text, b"rule ", fact.bytes()),
        Step::Erule { fact } => push_word(text, b"erule ", fact.bytes()),
        Step::Drule { fact } => push_word(text, b"drule ", fact.bytes()),
        Step::Assumption => text.extend_from_slice(b"assumption"),
        Step::Unfold { facts } => {
            text.extend_from_slice(b"unfold")?;
            push_names(text, facts)
        }
        Step::Prefer { n } => {
            text.extend_from_slice(b"prefer ")?;
            push_number(alloc, text, *n as usize)
        }
        Step::Defer => text.extend_from_slice(b"defer"),
        Step::Close => Ok(()),
        Step::Done => text.extend_from_slice(b"done"),
    }
}

/// Whether the step has a number: each but that which closes subgoals.
fn is_numbered(step: &Step) -> bool
    ensures { result ≡ is_numbered (seen_step step.now) }
{
    match step {
        Step::Rule { .. } => true,
        Step::Erule { .. } => true,
        Step::Drule { .. } => true,
        Step::Assumption => true,
        Step::Unfold { .. } => true,
        Step::Prefer { .. } => true,
        Step::Defer => true,
        Step::Close => false,
        Step::Done => true,
    }
}

/// Appends what stands before the place in a step's line.
pub(crate) fn push_before_place(
    alloc: Global,
    text: &mut Vec<u8>,
    number: u32,
    step: &Step,
) -> Result<(), AllocError>
    ensures { OnOk result (text.new.items ≡ text.old.items ++ spec.before_place number (seen_step step.now)) }
{
    if !is_numbered(step) {
        return text.extend_from_slice(b"close at ");
    }
    text.extend_from_slice(b"step ")?;
    push_number(alloc, text, number as usize)?;
    text.extend_from_slice(b" at ")
}

/// Appends what stands behind the place in a step's line.
pub(crate) fn push_behind_place(
    alloc: Global,
    text: &mut Vec<u8>,
    step: &Step,
) -> Result<(), AllocError>
    ensures { OnOk result (text.new.items ≡ text.old.items ++ spec.behind_place (seen_step step.now)) }
{
    if !is_numbered(step) {
        return text.extend_from_slice(b"\n");
    }
    text.extend_from_slice(b": ")?;
    push_words(alloc, text, step)?;
    text.extend_from_slice(b"\n")
}

/// Appends the line of a step's fault.
fn push_fault(
    alloc: Global,
    text: &mut Vec<u8>,
    step: u32,
    fault: StepFault,
) -> Result<(), AllocError>
    ensures { OnOk result (text.new.items ≡ text.old.items ++ spec.fault_line step fault) }
{
    text.extend_from_slice(b"step ")?;
    push_number(alloc, text, step as usize)?;
    text.extend_from_slice(b": ")?;
    text.extend_from_slice(fault_words(fault))?;
    text.extend_from_slice(b"\n")
}

/// Appends the line that says how the proof ends.
pub(crate) fn push_end(
    alloc: Global,
    text: &mut Vec<u8>,
    outcome: &Outcome,
) -> Result<(), AllocError>
    ensures { OnOk result (text.new.items ≡ text.old.items ++ spec.end_line (shown_ending outcome.now)) }
{
    match outcome {
        Outcome::Proved { .. } => text.extend_from_slice(b"done\n"),
        Outcome::Fault { step, fault } => push_fault(alloc, text, *step, *fault),
    }
}
