//! The parts of the files before a file.
ghost use Rattle.std.specs.Prelude.{◌≡◌, ◌+◌, ◌<◌, ◌≤◌, true, false, MatchOption};
ghost use Rattle.pure_script.specs.Seen.{seen_commands};
ghost use Rattle.pure_graph.specs.Limits.{most_session_parts, session_parts_bound};
ghost use Rattle.pure_graph.specs.Outcome.{part_count};
ghost use Rattle.pure_graph.specs.Reading as spec;
ghost use Rattle.pure_graph.specs.Seen.{seen_outcome};

use crate::header::parts_within;
use crate::outcome::{Outcome, Reason};
use pure_script::Command;

/// The most parts that a theory of this version and all before it together may have.
fn most_session_parts(version: u32) -> usize
    ensures is { result ≡ most_session_parts version }
    ensures few { result ≤ session_parts_bound }
{
    if version == 1 { 4096 } else { 8192 }
}

/// The parts of the files before a file and those of its commands, if together they aren't more than its version allows. The
/// files before may have more than that, where their versions allow more.
fn sum_with(before: usize, version: u32, commands: &[Command]) -> Option<usize>
    requires { before ≤ session_parts_bound }
    ensures { MatchOption result
        (most_session_parts version < before + part_count (seen_commands commands.now))
        (λ sum. (sum ≡ before + part_count (seen_commands commands.now)) × (sum ≤ most_session_parts version)) }
{
    let most = most_session_parts(version);
    let Some(parts) = parts_within(commands, most) else {
        return None;
    };
    let sum = before + parts;
    if sum > most {
        return None;
    }
    Some(sum)
}

/// The parts of the files before a file and its own, if behind these files there is room for it.
fn sum_of(before: usize, outcome: &Outcome) -> Option<usize>
    requires { before ≤ session_parts_bound }
    ensures { MatchOption result
        (spec.fits before (seen_outcome outcome.now) ≡ false)
        (λ sum. (spec.fits before (seen_outcome outcome.now) ≡ true) × (sum ≡ before + spec.file_parts (seen_outcome outcome.now)) × (sum ≤ session_parts_bound)) }
{
    match outcome {
        Outcome::Refused { .. } => Some(before),
        Outcome::Stands { text, .. } => sum_with(before, text.version, text.commands.as_slice()),
    }
}

/// What a file says behind files with so many parts, to which its own come.
pub(crate) fn counted(before: &mut usize, outcome: Outcome) -> Outcome
    requires { before.now ≤ session_parts_bound }
    ensures said { seen_outcome result ≡ spec.counted before.old (seen_outcome outcome) }
    ensures sum { before.new ≡ before.old + spec.file_parts (seen_outcome result) }
    ensures few { before.new ≤ session_parts_bound }
{
    let Some(sum) = sum_of(*before, &outcome) else {
        return Outcome::Refused {
            reason: Reason::TooLarge,
        };
    };
    *before = sum;
    outcome
}
