//! Names, indexes and sorts as they are printed.
ghost use Rattle.std.specs.Prelude.{◌≡◌, ◌-◌, ◌++◌, length, slice_get, OnOk, None, Some};
ghost use Rattle.pure_typ.specs.NameTexts.{name_texts};
ghost use Rattle.std.specs.List.{list_all};
ghost use Rattle.pure_grammar.specs.Tokens.Bytes.{is_letter, is_name_byte, head_is};
ghost use Rattle.pure_grammar.specs.Tokens.Token.{is_spelling};
ghost use Rattle.pure_print.specs.NameText.{name_text, text_of_name, term_name_text, typ_name_text, typ_variable_text, index_text, more_classes_text, sort_text, is_variable, spelled_or_numbered, state_variable_text};
ghost use Rattle.pure_print.specs.Forms.{variable_text};

use crate::number::push_number;
use pure_term::{Name, Names};
use std::alloc::AllocError;

/// The longest identifier, in bytes.
const LONGEST: usize = 64;

/// How the names of schematic variables are printed: as other names are, or as in the states of a proof.
#[derive(Clone, Copy)]
pub(crate) enum Naming {
    InTexts,
    InState,
}

/// The number of a name above the table, counted from 0 at the first one.
fn number_above(names: &Names, name: u32) -> u32
    requires { slice_get (name_texts names.now) name ≡ None }
    ensures { result ≡ name - length (name_texts names.now) }
{
    let mut low = 0;
    let mut high = name;
    while low < high {
        let middle = low + (high - low) / 2;
        match names.text(Name(middle)) {
            Some(_) => low = middle + 1,
            None => high = middle,
        }
    }
    name - low
}

/// Appends the text of the name, or the mark and the name's number above the table.
fn push_name(text: &mut Vec<u8>, names: &Names, mark: &[u8], name: Name) -> Result<(), AllocError>
    ensures { OnOk result (text.new.items ≡ text.old.items ++ name_text mark.now names.now name) }
{
    match names.text(name) {
        Some(found) => {
            text.extend_from_slice(found)?;
            Ok(())
        }
        None => {
            text.extend_from_slice(mark)?;
            push_number(text, number_above(names, name.0) as usize)?;
            Ok(())
        }
    }
}

/// Appends the text of the name, if it has one.
pub fn push_text_of_name(text: &mut Vec<u8>, names: &Names, name: Name) -> Result<(), AllocError>
    ensures { OnOk result (text.new.items ≡ text.old.items ++ text_of_name names.now name) }
{
    match names.text(name) {
        Some(found) => {
            text.extend_from_slice(found)?;
            Ok(())
        }
        None => Ok(()),
    }
}

/// Appends the name of a constant or of a variable of terms.
pub(crate) fn push_term_name(
    text: &mut Vec<u8>,
    names: &Names,
    name: Name,
) -> Result<(), AllocError>
    ensures { OnOk result (text.new.items ≡ text.old.items ++ term_name_text names.now name) }
{
    push_name(text, names, b"_v", name)
}

/// `A` to `Z` and `a` to `z`.
#[tactic(auto, unfolding(pure_grammar::specs::Tokens::Bytes::is_letter))]
fn is_letter(b: u8) -> bool
    ensures { result ≡ is_letter b }
{
    b.is_ascii_alphabetic()
}

/// A letter, a digit, `_` or `'`.
#[tactic(auto, unfolding(pure_grammar::specs::Tokens::Bytes::is_name_byte, pure_grammar::specs::Tokens::Bytes::is_letter, pure_grammar::specs::Tokens::Bytes::is_digit))]
fn is_name_byte(b: u8) -> bool
    ensures { result ≡ is_name_byte b }
{
    b.is_ascii_alphabetic() || b.is_ascii_digit() || b == b'_' || b == b'\''
}

/// Whether the text begins with a letter.
fn begins_letter(text: &[u8]) -> bool
    ensures { result ≡ head_is is_letter text.now }
{
    match text.first() {
        Some(b) => is_letter(*b),
        None => false,
    }
}

/// Whether letters, digits, `_` and `'` alone stand in the text.
fn are_name_bytes(text: &[u8]) -> bool
    ensures { result ≡ list_all is_name_byte text.now }
{
    text.iter().all(|b| is_name_byte(*b))
}

/// Whether the text is a spelling.
fn is_spelling(text: &[u8]) -> bool
    ensures { result ≡ is_spelling text.now }
{
    begins_letter(text) && are_name_bytes(text)
}

/// Whether the text is a variable's spelling.
fn is_variable(text: &[u8]) -> bool
    ensures { result ≡ is_variable text.now }
{
    is_spelling(text) && text.len() <= LONGEST
}

/// Appends `_` and the number.
fn push_numbered(text: &mut Vec<u8>, number: u32) -> Result<(), AllocError>
    ensures { OnOk result (text.new.items ≡ text.old.items ++ spelled_or_numbered number None) }
{
    text.push(b'_')?;
    push_number(text, number as usize)
}

/// Appends the name, where it is a variable's spelling, and else `_` and the number.
fn push_spelled(text: &mut Vec<u8>, number: u32, name: &[u8]) -> Result<(), AllocError>
    ensures { OnOk result (text.new.items ≡ text.old.items ++ spelled_or_numbered number (Some name.now)) }
{
    if is_variable(name) {
        text.extend_from_slice(name)
    } else {
        push_numbered(text, number)
    }
}

/// Appends the name of a schematic variable in a state of a proof.
fn push_state_variable(text: &mut Vec<u8>, names: &Names, name: Name) -> Result<(), AllocError>
    ensures { OnOk result (text.new.items ≡ text.old.items ++ state_variable_text names.now name) }
{
    match names.text(name) {
        Some(found) => push_spelled(text, name.0, found),
        None => push_numbered(text, name.0),
    }
}

/// Appends the name of a schematic variable.
pub(crate) fn push_variable(
    text: &mut Vec<u8>,
    names: &Names,
    naming: Naming,
    name: Name,
) -> Result<(), AllocError>
    ensures { OnOk result (text.new.items ≡ text.old.items ++ variable_text naming names.now name) }
{
    match naming {
        Naming::InTexts => push_term_name(text, names, name),
        Naming::InState => push_state_variable(text, names, name),
    }
}

/// Appends the name of a type constructor or of a class.
pub(crate) fn push_typ_name(text: &mut Vec<u8>, names: &Names, name: Name) -> Result<(), AllocError>
    ensures { OnOk result (text.new.items ≡ text.old.items ++ typ_name_text names.now name) }
{
    push_name(text, names, b"'_", name)
}

/// Appends the name of a type variable, with its mark.
pub(crate) fn push_typ_variable(
    text: &mut Vec<u8>,
    names: &Names,
    name: Name,
) -> Result<(), AllocError>
    ensures { OnOk result (text.new.items ≡ text.old.items ++ typ_variable_text names.now name) }
{
    text.push(b'\'')?;
    push_name(text, names, b"_", name)?;
    Ok(())
}

fn push_more_classes(text: &mut Vec<u8>, names: &Names, classes: &[Name]) -> Result<(), AllocError>
    ensures { OnOk result (text.new.items ≡ text.old.items ++ more_classes_text names.now classes.now) }
{
    for class in classes {
        text.push(b',')?;
        push_typ_name(text, names, *class)?;
    }
    Ok(())
}

/// Appends the sort of these classes, with its mark.
pub(crate) fn push_sort(
    text: &mut Vec<u8>,
    names: &Names,
    classes: &[Name],
) -> Result<(), AllocError>
    ensures { OnOk result (text.new.items ≡ text.old.items ++ sort_text names.now classes.now) }
{
    if classes.len() == 0 {
        return Ok(());
    }
    if classes.len() == 1 {
        text.extend_from_slice(b"::")?;
        push_typ_name(text, names, classes[0])?;
        return Ok(());
    }
    text.extend_from_slice(b"::{")?;
    push_typ_name(text, names, classes[0])?;
    push_more_classes(text, names, &classes[1..])?;
    text.push(b'}')?;
    Ok(())
}

/// Appends the index of a schematic variable, unless it is 0.
pub(crate) fn push_index(text: &mut Vec<u8>, index: u32) -> Result<(), AllocError>
    ensures { OnOk result (text.new.items ≡ text.old.items ++ index_text index) }
{
    if index == 0 {
        return Ok(());
    }
    text.push(b'.')?;
    push_number(text, index as usize)?;
    Ok(())
}
