//! The parts of commands.
ghost use Rattle.std.specs.Prelude.{◌≡◌, ◌<◌};
ghost use Rattle.pure_graph.specs.Outcome as spec;
ghost use Rattle.pure_script.specs.Seen.{seen_command, seen_commands};

use pure_script::Command;

/// The parts of a command: it is one itself, and each have of a lemma is one.
pub(crate) fn command_parts(command: &Command) -> usize
    ensures { result ≡ spec.command_parts (seen_command command.now) }
{
    match command {
        Command::Class { .. } => 1,
        Command::TypeDecl { .. } => 1,
        Command::Arity { .. } => 1,
        Command::Const { .. } => 1,
        Command::Axiom { .. } => 1,
        Command::Definition { .. } => 1,
        Command::Lemma { haves, .. } => 1 + haves.len(),
    }
}

/// The parts of these commands, which aren't too many.
pub(crate) fn part_count(commands: &[Command]) -> usize
    requires { spec.part_count (seen_commands commands.now) < 4294967296 }
    ensures { result ≡ spec.part_count (seen_commands commands.now) }
{
    let mut count = 0;
    for command in commands {
        count += command_parts(command);
    }
    count
}
