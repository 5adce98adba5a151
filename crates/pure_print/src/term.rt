//! Terms as they are printed.
ghost use Rattle.std.specs.Prelude.{◌≡◌, ◌++◌, ◌+◌, IfOk, OnOk};
ghost use Rattle.pure_print.specs.Notation.{notation, number_of};
ghost use Rattle.pure_print.specs.TermText.{number_text, body_text, placed, form_text_by, term_text, state_text};
ghost use Rattle.pure_print.specs.Forms.{seen_form, variable_text};
ghost use Rattle.pure_print.specs.Readable.{IsReadable};
ghost use Rattle.pure_print.specs.ReadBack.{IsReadBack};

use crate::form::Form;
use crate::name::{Naming, push_index, push_term_name, push_variable};
use crate::number::push_number;
use pure_term::{Names, Term, Text};
use std::alloc::{AllocError, Global};

/// The printed form of a term.
pub fn print_term(alloc: Global, names: &Names, t: &Term) -> Result<Text, AllocError>
    ensures printed { IfOk result (λ text. text ≡ term_text names.now t.now) }
    ensures read_back { IfOk result (λ text. IsReadable names.now t.now → IsReadBack names.now t.now text) }
{
    let mut text = Vec::new(alloc);
    push_text_of_term(&mut text, names, t)?;
    Ok(Text::from(text))
}

/// The printed form of a term of a proof's state.
pub fn print_state_term(alloc: Global, names: &Names, t: &Term) -> Result<Text, AllocError>
    ensures printed { IfOk result (λ text. text ≡ state_text names.now t.now) }
    ensures read_back { IfOk result (λ text. IsReadable names.now t.now → IsReadBack names.now t.now text) }
{
    let mut text = Vec::new(alloc);
    push_term(&mut text, names, Naming::InState, 0, 0, t)?;
    Ok(Text::from(text))
}

/// Appends the printed form of a term.
pub fn push_text_of_term(text: &mut Vec<u8>, names: &Names, t: &Term) -> Result<(), AllocError>
    ensures { OnOk result (text.new.items ≡ text.old.items ++ term_text names.now t.now) }
{
    push_term(text, names, Naming::InTexts, 0, 0, t)?;
    Ok(())
}

/// Appends a term under so many binders, in parentheses where it binds less tightly than the level.
#[cycle(term)]
fn push_term(
    text: &mut Vec<u8>,
    names: &Names,
    naming: Naming,
    binders: usize,
    level: u8,
    t: &Term,
) -> Result<(), AllocError>
    ensures { OnOk result (text.new.items ≡ text.old.items ++ placed level (notation binders t.now) (form_text_by (variable_text naming names.now) names.now (notation binders t.now))) }
{
    let form = Form::of(t);
    if form.level() >= level {
        return push_form(text, names, naming, binders, &form);
    }
    text.push(b'(')?;
    push_form(text, names, naming, binders, &form)?;
    text.push(b')')?;
    Ok(())
}

#[cycle(term)]
fn push_form(
    text: &mut Vec<u8>,
    names: &Names,
    naming: Naming,
    binders: usize,
    form: &Form<'_>,
) -> Result<(), AllocError>
    ensures { OnOk result (text.new.items ≡ text.old.items ++ form_text_by (variable_text naming names.now) names.now (seen_form binders form.now)) }
{
    match form {
        Form::Constant { name } => push_term_name(text, names, *name),
        Form::Fixed { name } => push_term_name(text, names, *name),
        Form::Schematic { name, index } => {
            text.push(b'?')?;
            push_variable(text, names, naming, *name)?;
            push_index(text, *index)
        }
        Form::Bound { place } => push_bound(text, binders, *place),
        Form::ForAll { body } => {
            text.extend_from_slice(b"!!")?;
            push_body(text, names, naming, binders, 0, body)
        }
        Form::Lambda { body } => {
            text.push(b'%')?;
            push_body(text, names, naming, binders, 3, body)
        }
        Form::Implies { left, right } => {
            push_term(text, names, naming, binders, 2, left)?;
            text.extend_from_slice(b" ==> ")?;
            push_term(text, names, naming, binders, 1, right)
        }
        Form::Equal { left, right } => {
            push_term(text, names, naming, binders, 3, left)?;
            text.extend_from_slice(b" == ")?;
            push_term(text, names, naming, binders, 3, right)
        }
        Form::Apply { function, argument } => {
            push_term(text, names, naming, binders, 4, function)?;
            text.push(b' ')?;
            push_term(text, names, naming, binders, 5, argument)
        }
    }
}

/// Appends a binder without its mark, and its body.
#[cycle(term)]
fn push_body(
    text: &mut Vec<u8>,
    names: &Names,
    naming: Naming,
    binders: usize,
    level: u8,
    body: &Term,
) -> Result<(), AllocError>
    ensures { OnOk result (text.new.items ≡ text.old.items ++ body_text level binders (notation (binders + 1) body.now) (form_text_by (variable_text naming names.now) names.now (notation (binders + 1) body.now))) }
{
    let Some(inner) = binders.checked_add(1) else {
        return Err(AllocError);
    };
    push_bound_name(text, binders)?;
    text.extend_from_slice(b". ")?;
    push_term(text, names, naming, inner, level, body)
}

/// Appends the name of the binder that has this number.
fn push_bound_name(text: &mut Vec<u8>, number: usize) -> Result<(), AllocError>
    ensures { OnOk result (text.new.items ≡ text.old.items ++ number_text number) }
{
    text.push(b'_')?;
    push_number(text, number)
}

/// Appends the name of a bound variable under so many binders.
fn push_bound(text: &mut Vec<u8>, binders: usize, place: u32) -> Result<(), AllocError>
    ensures { OnOk result (text.new.items ≡ text.old.items ++ number_text (number_of binders place)) }
{
    let place = place as usize;
    if place < binders {
        push_bound_name(text, binders - (place + 1))
    } else {
        push_bound_name(text, place)
    }
}
