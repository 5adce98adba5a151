//! Types as they are printed.
ghost use Rattle.std.specs.Prelude.{◌≡◌, ◌++◌, IfOk, OnOk};
ghost use Rattle.pure_definitions.specs.Types.Typ.{Con, typs_of};
ghost use Rattle.pure_print.specs.Readable.{IsReadableTyp};
ghost use Rattle.pure_print.specs.ReadBack.{IsReadBackTyp};
ghost use Rattle.pure_print.specs.TypText as spec;

use crate::name::{push_index, push_sort, push_typ_name, push_typ_variable};
use pure_term::{Name, Names, Text, Typ, TypNode};
use std::alloc::{AllocError, Global};

/// The printed form of a type.
pub fn print_typ(alloc: Global, names: &Names, t: &Typ) -> Result<Text, AllocError>
    ensures printed { IfOk result (λ text. text ≡ spec.typ_text names.now t.now) }
    ensures read_back { IfOk result (λ text. IsReadableTyp names.now t.now → IsReadBackTyp names.now t.now text) }
{
    let mut text = Vec::new(alloc);
    push_typ(&mut text, names, t)?;
    Ok(Text::from(text))
}

fn is_arrow_of(constructor: Name, args: &[Typ]) -> bool
    ensures { result ≡ spec.is_arrow_of constructor (typs_of args.now) }
{
    args.len() == 2 && constructor == Name::FUN
}

fn is_arrow(t: &Typ) -> bool
    ensures { result ≡ spec.is_arrow t.now }
{
    match &t.node {
        TypNode::TFree { .. } => false,
        TypNode::TVar { .. } => false,
        TypNode::Con { name, args } => is_arrow_of(*name, args.as_slice()),
    }
}

#[cycle(typ)]
fn push_typ(text: &mut Vec<u8>, names: &Names, t: &Typ) -> Result<(), AllocError>
    ensures { OnOk result (text.new.items ≡ text.old.items ++ spec.typ_text names.now t.now) }
{
    match &t.node {
        TypNode::TFree { name, sort } => {
            push_typ_variable(text, names, *name)?;
            push_sort(text, names, sort.classes())
        }
        TypNode::TVar { name, index, sort } => {
            text.push(b'?')?;
            push_typ_variable(text, names, *name)?;
            push_index(text, *index)?;
            push_sort(text, names, sort.classes())
        }
        TypNode::Con { name, args } => push_applied(text, names, *name, args.as_slice()),
    }
}

/// Appends a type that may stand before an arrow or be the one argument of a constructor.
#[cycle(typ)]
fn push_operand(text: &mut Vec<u8>, names: &Names, t: &Typ) -> Result<(), AllocError>
    ensures { OnOk result (text.new.items ≡ text.old.items ++ spec.in_parentheses (spec.is_arrow t.now) (spec.typ_text names.now t.now)) }
{
    if !is_arrow(t) {
        return push_typ(text, names, t);
    }
    text.push(b'(')?;
    push_typ(text, names, t)?;
    text.push(b')')?;
    Ok(())
}

/// Appends a constructor without arguments.
fn push_constant(text: &mut Vec<u8>, names: &Names, constructor: Name) -> Result<(), AllocError>
    ensures { OnOk result (text.new.items ≡ text.old.items ++ spec.constant_typ_text names.now constructor) }
{
    if constructor == Name::PROP {
        text.extend_from_slice(b"prop")
    } else {
        push_typ_name(text, names, constructor)
    }
}

/// Appends each type behind a comma and a blank.
#[cycle(typ)]
fn push_more_typs(text: &mut Vec<u8>, names: &Names, args: &[Typ]) -> Result<(), AllocError>
    ensures { OnOk result (text.new.items ≡ text.old.items ++ spec.more_typs_text names.now (typs_of args.now)) }
{
    for arg in args {
        text.extend_from_slice(b", ")?;
        push_typ(text, names, arg)?;
    }
    Ok(())
}

#[cycle(typ)]
fn push_applied(
    text: &mut Vec<u8>,
    names: &Names,
    constructor: Name,
    args: &[Typ],
) -> Result<(), AllocError>
    ensures { OnOk result (text.new.items ≡ text.old.items ++ spec.typ_text names.now (Con constructor (typs_of args.now))) }
{
    if args.len() == 0 {
        return push_constant(text, names, constructor);
    }
    if args.len() == 1 {
        push_operand(text, names, &args[0])?;
        text.push(b' ')?;
        push_typ_name(text, names, constructor)?;
        return Ok(());
    }
    if is_arrow_of(constructor, args) {
        push_operand(text, names, &args[0])?;
        text.extend_from_slice(b" => ")?;
        push_typ(text, names, &args[1])?;
        return Ok(());
    }
    text.push(b'(')?;
    push_typ(text, names, &args[0])?;
    push_more_typs(text, names, &args[1..])?;
    text.extend_from_slice(b") ")?;
    push_typ_name(text, names, constructor)?;
    Ok(())
}
