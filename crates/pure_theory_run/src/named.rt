//! The lemma or have that has some name, and which names of facts may be written.
ghost use Rattle.std.specs.Prelude.{◌≡◌, MatchOption, None, Some};
ghost use Rattle.std.specs.List.{count_by};
ghost use Rattle.pure_grammar.specs.Theories.Lexeme.{same};
ghost use Rattle.pure_print.specs.NameText.{text_of_name};
ghost use Rattle.pure_theory_run.specs.Named as spec;

use pure_session_meaning::declare::Duty;
use pure_typ::{Name, NamesByBase};

/// The number of the mark of a goal, which can't be written.
const PROTECT: u32 = 5;

/// The text of a name; one that has none is empty.
pub fn text_of<'a>(names: &'a NamesByBase, name: Name) -> &'a [u8]
    ensures { result.now ≡ text_of_name names.entry.now name }
{
    match names.names().text(name) {
        Some(text) => text,
        None => &[],
    }
}

fn is_dot(byte: u8) -> bool
    ensures { result ≡ spec.is_dot byte }
{
    byte == b'.'
}

/// How many dots stand in the text.
fn dots(text: &[u8]) -> usize
    ensures { result ≡ count_by spec.is_dot text.now }
{
    text.iter().filter(|it| is_dot(**it)).count()
}

/// Whether a fact with this name is found by its full name: the mark of a goal isn't, nor a have, whose name has two dots.
pub fn is_written(names: &NamesByBase, name: Name) -> bool
    ensures { result ≡ spec.is_written names.now name }
{
    if name.0 == PROTECT {
        return false;
    }
    dots(text_of(names, name)) < 2
}

/// Whether the lemma or have has this full name.
fn has_name(names: &NamesByBase, duty: &Duty, name: &[u8]) -> bool
    ensures { result ≡ same (text_of_name names.now duty.now.name) name.now }
{
    text_of(names, duty.name) == name
}

/// The first lemma or have with this full name.
pub fn lemma_named<'a>(names: &NamesByBase, duties: &'a [Duty], name: &[u8]) -> Option<&'a Duty>
    ensures { MatchOption result (spec.lemma_named names.now name.now duties.entry.now ≡ None) (λ d. spec.lemma_named names.now name.now duties.entry.now ≡ Some d.now) }
{
    for duty in duties {
        if has_name(names, duty, name) {
            return Some(duty);
        }
    }
    None
}
