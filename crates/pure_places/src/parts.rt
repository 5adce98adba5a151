//! Places of a theory's parts.
ghost use Rattle.std.specs.Prelude.{◌≡◌, get_or, map};
ghost use Rattle.pure_places.specs.Parts as spec;
ghost use Rattle.pure_places.specs.Seen.{seen_part, seen_command};

use pure_text::Text;

/// Where the name of a command or a have stands, and the word of each numbered step of its proof: of a method its word, of
/// `prefer`, `defer` and `done` the keyword, of the end that `by` makes the word `by`. Places count bytes from 0.
#[derive(Drop)]
pub struct Part {
    pub name: u32,
    pub steps: Vec<u32>,
}

/// Where a command stands, and, of a lemma, each of its haves, in their order.
#[derive(Drop)]
pub struct CommandParts {
    pub haves: Vec<Part>,
    pub own: Part,
}

/// An import in a header, and where it stands.
#[derive(Drop)]
pub struct Import {
    pub theory: Text,
    pub at: u32,
}

/// Where the name in a theory's header stands, its imports and its commands, in their order. Each item of `consts` and each
/// part of `axiomatization` is a command.
#[derive(Drop)]
pub struct Places {
    pub name: u32,
    pub imports: Vec<Import>,
    pub commands: Vec<CommandParts>,
}

/// The have with this number, or another where there is none.
fn have_at<'p>(haves: &'p [Part], number: u32, other: &'p Part) -> &'p Part
    ensures { seen_part result.now ≡ get_or (map seen_part haves.entry.now) number (seen_part other.entry.now) }
{
    let place = number as usize;
    if place < haves.len() {
        return &haves[place];
    }
    other
}

/// The command with this number, or another where there is none.
fn command_at<'p>(
    commands: &'p [CommandParts],
    number: u32,
    other: &'p CommandParts,
) -> &'p CommandParts
    ensures { seen_command result.now ≡ get_or (map seen_command commands.entry.now) number (seen_command other.entry.now) }
{
    let place = number as usize;
    if place < commands.len() {
        return &commands[place];
    }
    other
}

/// The have of a command with this number, or the command itself, whose number is that of its haves.
fn part_of<'p>(command: &'p CommandParts, number: u32, other: &'p Part) -> &'p Part
    ensures { seen_part result.now ≡ spec.part_of (seen_command command.entry.now) number (seen_part other.entry.now) }
{
    if number as usize == command.haves.len() {
        return &command.own;
    }
    have_at(command.haves.as_slice(), number, other)
}

/// The same of the command with this number, or of another where there is none.
pub fn part_at<'p>(
    commands: &'p [CommandParts],
    command: u32,
    part: u32,
    none: &'p CommandParts,
) -> &'p Part
    ensures { seen_part result.now ≡ spec.part_at (map seen_command commands.entry.now) command part (seen_command none.entry.now) }
{
    part_of(command_at(commands, command, none), part, &none.own)
}
