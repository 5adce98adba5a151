//! What the tree of a theory's file says.
ghost use Rattle.std.specs.Prelude.{◌≡◌, ◌<◌, ◌≤◌, ◌||◌, MatchOption, count_by, nat_lt};
ghost use Rattle.std.specs.List.{list_any};
ghost use Rattle.pure_script.specs.Seen.{seen_theory, seen_have, seen_command, seen_commands, seen_step, seen_steps};
ghost use Rattle.pure_graph.specs.Limits.{most_parts};
ghost use Rattle.pure_graph.specs.Outcome as spec;
ghost use Rattle.pure_graph.specs.Seen.{seen_outcome};

use crate::outcome::{Outcome, Reason};
use pure_script::{Command, Have, Step, TheoryText};
use pure_text::Text;

/// The most numbered steps that a proof may have.
const MOST_STEPS: usize = 1000;

/// Whether the step is numbered: all are but the one that closes subgoals.
fn is_numbered(step: &Step) -> bool
    ensures { result ≡ spec.is_numbered (seen_step step.now) }
{
    match step {
        Step::Rule { .. } => true,
        Step::Erule { .. } => true,
        Step::Drule { .. } => true,
        Step::Assumption => true,
        Step::Unfold { .. } => true,
        Step::Prefer { .. } => true,
        Step::Defer => true,
        Step::Close => false,
        Step::Done => true,
    }
}

/// How many steps are numbered.
fn step_count(script: &[Step]) -> usize
    ensures { result ≡ count_by spec.is_numbered (seen_steps script.now) }
{
    script.iter().filter(|step| is_numbered(step)).count()
}

/// Whether there are more steps than a proof may have.
fn is_long(script: &[Step]) -> bool
    ensures { result ≡ spec.is_long (seen_steps script.now) }
{
    step_count(script) > MOST_STEPS
}

/// Whether the have has a proof that is too long.
fn has_long_script(inner: &Have) -> bool
    ensures { result ≡ spec.is_long (seen_have inner.now).script }
{
    is_long(inner.script.as_slice())
}

/// Whether some have has a proof that is too long.
fn has_long_have(haves: &[Have]) -> bool
    ensures { result ≡ list_any (λ h. spec.is_long (seen_have h).script) haves.now }
{
    haves.iter().any(|inner| has_long_script(inner))
}

/// Whether a lemma's proof, or that of one of its haves, is too long.
fn has_long_part(haves: &[Have], script: &[Step]) -> bool
    ensures { result ≡ (list_any (λ h. spec.is_long (seen_have h).script) haves.now || spec.is_long (seen_steps script.now)) }
{
    has_long_have(haves) || is_long(script)
}

/// Whether the command is a lemma with a proof that is too long, its own or that of a have.
fn has_long_proof(command: &Command) -> bool
    ensures { result ≡ spec.has_long_proof (seen_command command.now) }
{
    match command {
        Command::Class { .. } => false,
        Command::TypeDecl { .. } => false,
        Command::Arity { .. } => false,
        Command::Const { .. } => false,
        Command::Axiom { .. } => false,
        Command::Definition { .. } => false,
        Command::Lemma { haves, script, .. } => {
            has_long_part(haves.as_slice(), script.as_slice())
        }
    }
}

/// Whether some command is a lemma with a proof that is too long.
fn have_long_proof(commands: &[Command]) -> bool
    ensures { result ≡ list_any (λ c. spec.has_long_proof (seen_command c)) commands.now }
{
    commands.iter().any(|command| has_long_proof(command))
}

/// The parts of a command: it is one itself, and each have of a lemma is one.
fn command_parts(command: &Command) -> usize
    ensures { result ≡ spec.command_parts (seen_command command.now) }
{
    match command {
        Command::Class { .. } => 1,
        Command::TypeDecl { .. } => 1,
        Command::Arity { .. } => 1,
        Command::Const { .. } => 1,
        Command::Axiom { .. } => 1,
        Command::Definition { .. } => 1,
        Command::Lemma { haves, .. } => 1 + haves.len(),
    }
}

/// The most parts that a theory of this version may have.
fn most_parts(version: u32) -> usize
    ensures { result ≡ most_parts version }
{
    if version == 1 { 512 } else { 1024 }
}

/// The parts of the commands, if they are at most so many.
pub(crate) fn parts_within(commands: &[Command], most: usize) -> Option<usize>
    ensures { MatchOption result (most < spec.part_count (seen_commands commands.now)) (λ n. (n ≡ spec.part_count (seen_commands commands.now)) × (n ≤ most)) }
{
    let mut count = 0;
    for command in commands {
        let parts = command_parts(command);
        if parts > most - count {
            return None;
        }
        count += parts;
    }
    Some(count)
}

/// Whether the commands have more parts than a theory of this version may have.
fn has_many_parts(version: u32, commands: &[Command]) -> bool
    ensures { result ≡ nat_lt (most_parts version) (spec.part_count (seen_commands commands.now)) }
{
    parts_within(commands, most_parts(version)).is_none()
}

/// Whether the theory has more parts than it may have, or a proof that is too long.
fn is_large(text: &TheoryText) -> bool
    ensures { result ≡ spec.is_large (seen_theory text.now) }
{
    has_many_parts(text.version, text.commands.as_slice())
        || have_long_proof(text.commands.as_slice())
}

/// Whether the header's name is the file's, and isn't Pure.
#[tactic(auto, unfolding(crate::specs::Outcome::pure_theory))]
fn is_headed(theory: &Text, text: &TheoryText) -> bool
    ensures { result ≡ spec.is_headed theory.now (seen_theory text.now) }
{
    text.name == *theory && text.name.bytes() != b"Pure".as_slice()
}

/// Whether there is such a version.
fn is_known_version(version: u32) -> bool
    ensures { result ≡ spec.is_known_version version }
{
    version == 1 || version == 2
}

/// What the tree of a theory's file says, where its version is known.
fn known_outcome(theory: &Text, source: Text, text: TheoryText) -> Outcome
    ensures { seen_outcome result ≡ spec.known_outcome theory.now source (seen_theory text) }
{
    if !is_headed(theory, &text) {
        return Outcome::Refused {
            reason: Reason::HeaderName,
        };
    }
    if is_large(&text) {
        return Outcome::Refused {
            reason: Reason::TooLarge,
        };
    }
    Outcome::Stands { source, text }
}

/// What the tree of a theory's file says.
pub(crate) fn tree_outcome(theory: &Text, source: Text, text: TheoryText) -> Outcome
    ensures { seen_outcome result ≡ spec.tree_outcome theory.now source (seen_theory text) }
{
    if !is_known_version(text.version) {
        return Outcome::Refused {
            reason: Reason::UnknownVersion,
        };
    }
    known_outcome(theory, source, text)
}
