//! The classes that are written at the type variables of a text.
ghost use Rattle.std.specs.Prelude.{◌≡◌, ◌++◌, OnOk};
ghost use Rattle.pure_grammar.specs.Terms.RawTree.{raw_typs_of};
ghost use Rattle.pure_read.specs.RawView.{seen_annotation};
ghost use Rattle.pure_elab.specs.Written as spec;

use crate::faults::behind_mark;
use crate::language::Language;
use pure_grammar::TokenKind;
use pure_read::{Raw, RawClass, RawNode, RawTyp, RawTypNode};
use pure_typ::Name;
use std::alloc::AllocError;

/// A class that is written at a type variable.
#[derive(Clone, Copy, Debug)]
pub struct WrittenClass {
    pub variable: Name,
    pub class: Name,
}

/// Adds the class, where one was found.
fn add_one(
    variable: Name,
    found: Option<Name>,
    written: &mut Vec<WrittenClass>,
) -> Result<(), AllocError>
    ensures { OnOk result (written.new.items ≡ written.old.items ++ spec.found_class variable found) }
{
    match found {
        None => Ok(()),
        Some(class) => {
            written.push(WrittenClass { variable, class })?;
            Ok(())
        }
    }
}

/// Adds the classes that are found.
fn add_found<L: Language>(
    language: &L,
    variable: Name,
    classes: &[RawClass],
    written: &mut Vec<WrittenClass>,
) -> Result<(), AllocError>
    ensures { OnOk result (written.new.items ≡ written.old.items ++ spec.found_classes (L.vocabulary language.now) variable classes.now) }
{
    for raw in classes {
        let name = raw.name.bytes();
        let found = language.find_class(name);
        add_one(variable, found, written)?;
    }
    Ok(())
}

/// Adds the classes at a type variable.
fn add_variable<L: Language>(
    language: &L,
    kind: TokenKind,
    text: &[u8],
    classes: &[RawClass],
    written: &mut Vec<WrittenClass>,
) -> Result<(), AllocError>
    ensures { OnOk result (written.new.items ≡ written.old.items ++ spec.variable_classes (L.vocabulary language.now) kind text.now classes.now) }
{
    if kind != TokenKind::TypeVar {
        return Ok(());
    }
    match language.find_name(behind_mark(text)) {
        None => Ok(()),
        Some(name) => {
            add_found(language, name, classes, written)?;
            Ok(())
        }
    }
}

/// Adds the classes in a type.
#[cycle(typ_classes)]
pub(crate) fn add_typ<L: Language>(
    language: &L,
    raw: &RawTyp,
    written: &mut Vec<WrittenClass>,
) -> Result<(), AllocError>
    ensures { OnOk result (written.new.items ≡ written.old.items ++ spec.typ_classes (L.vocabulary language.now) raw.now) }
{
    match &raw.node {
        RawTypNode::Var {
            kind,
            text,
            sort,
            ..
        } => add_variable(language, *kind, text.bytes(), sort.as_slice(), written),
        RawTypNode::Con { args, .. } => add_typs(language, args.as_slice(), written),
    }
}

/// Adds the classes in types.
#[cycle(typ_classes)]
fn add_typs<L: Language>(
    language: &L,
    args: &[RawTyp],
    written: &mut Vec<WrittenClass>,
) -> Result<(), AllocError>
    ensures { OnOk result (written.new.items ≡ written.old.items ++ spec.typs_classes (L.vocabulary language.now) (raw_typs_of args.now)) }
{
    for arg in args {
        add_typ(language, arg, written)?;
    }
    Ok(())
}

/// Adds the classes in the type of a binder, if one is written.
fn add_annotation<L: Language>(
    language: &L,
    typ: &Option<Box<RawTyp>>,
    written: &mut Vec<WrittenClass>,
) -> Result<(), AllocError>
    ensures { OnOk result (written.new.items ≡ written.old.items ++ spec.annotation_classes (L.vocabulary language.now) (seen_annotation typ.now)) }
{
    match typ {
        None => Ok(()),
        Some(typ) => add_typ(language, typ, written),
    }
}

/// Adds the classes in a term.
pub(crate) fn add_term<L: Language>(
    language: &L,
    raw: &Raw,
    written: &mut Vec<WrittenClass>,
) -> Result<(), AllocError>
    ensures { OnOk result (written.new.items ≡ written.old.items ++ spec.term_classes (L.vocabulary language.now) raw.now) }
{
    match &raw.node {
        RawNode::Leaf { .. } => Ok(()),
        RawNode::Abs { typ, body, .. } => {
            add_annotation(language, typ, written)?;
            add_term(language, body, written)?;
            Ok(())
        }
        RawNode::App { fun, arg, .. } => {
            add_term(language, fun, written)?;
            add_term(language, arg, written)?;
            Ok(())
        }
        RawNode::Typed { term, typ, .. } => {
            add_term(language, term, written)?;
            add_typ(language, typ, written)?;
            Ok(())
        }
    }
}
