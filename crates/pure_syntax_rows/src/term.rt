//! Trees of terms and types, written down.
use crate::say::{say, say_number};
use pure_grammar::TokenKind;
use pure_read::{Raw, RawClass, RawNode, RawTyp, RawTypNode};
use pure_text::Text;
use std::alloc::{AllocError, Global};

/// Writes a text and its place.
fn say_placed(alloc: Global, shown: &mut Vec<u8>, at: u32, text: &Text) -> Result<(), AllocError> {
    say_number(alloc, shown, at)?;
    say(shown, ":")?;
    shown.extend_from_slice(text.bytes())
}

/// Writes the sign of a leaf's kind.
fn say_kind(shown: &mut Vec<u8>, kind: TokenKind) -> Result<(), AllocError> {
    match kind {
        TokenKind::Ident => Ok(()),
        TokenKind::Qualified => say(shown, "."),
        TokenKind::TypeVar => say(shown, "'"),
        TokenKind::Schem => say(shown, "?"),
        TokenKind::BoundName => say(shown, "_"),
        _ => say(shown, "#"),
    }
}

/// Writes the classes of a type variable.
fn say_sort(alloc: Global, shown: &mut Vec<u8>, sort: &[RawClass]) -> Result<(), AllocError> {
    for class in sort {
        say(shown, "/")?;
        say_placed(alloc, shown, class.at, &class.name)?;
    }
    Ok(())
}

/// Writes a type's tree.
#[cycle(say_typ)]
pub(crate) fn say_typ(alloc: Global, shown: &mut Vec<u8>, typ: &RawTyp) -> Result<(), AllocError> {
    match &typ.node {
        RawTypNode::Var {
            at,
            kind,
            text,
            sort,
        } => {
            say_kind(shown, *kind)?;
            say_placed(alloc, shown, *at, text)?;
            say_sort(alloc, shown, sort)
        }
        RawTypNode::Con { at, name, args } => {
            say_placed(alloc, shown, *at, name)?;
            if args.is_empty() {
                return Ok(());
            }
            say(shown, "<")?;
            for arg in args {
                say_typ(alloc, shown, arg)?;
                say(shown, " ")?;
            }
            say(shown, ">")
        }
    }
}

/// Writes a type's tree, or `-` for none.
fn say_typ_or_none(
    alloc: Global,
    shown: &mut Vec<u8>,
    typ: &Option<Box<RawTyp>>,
) -> Result<(), AllocError> {
    match typ {
        None => say(shown, "-"),
        Some(typ) => say_typ(alloc, shown, typ),
    }
}

/// Writes a term's tree.
#[cycle(say_term)]
pub(crate) fn say_term(alloc: Global, shown: &mut Vec<u8>, term: &Raw) -> Result<(), AllocError> {
    match &term.node {
        RawNode::Leaf { at, kind, text } => {
            say_kind(shown, *kind)?;
            say_placed(alloc, shown, *at, text)
        }
        RawNode::Abs { at, var, typ, body } => {
            say(shown, "[")?;
            say_placed(alloc, shown, *at, var)?;
            say(shown, " ")?;
            say_typ_or_none(alloc, shown, typ)?;
            say(shown, " ")?;
            say_term(alloc, shown, body)?;
            say(shown, "]")
        }
        RawNode::App { at, fun, arg } => {
            say(shown, "(")?;
            say_number(alloc, shown, *at)?;
            say(shown, " ")?;
            say_term(alloc, shown, fun)?;
            say(shown, " ")?;
            say_term(alloc, shown, arg)?;
            say(shown, ")")
        }
        RawNode::Typed { at, term, typ } => {
            say(shown, "{")?;
            say_number(alloc, shown, *at)?;
            say(shown, " ")?;
            say_term(alloc, shown, term)?;
            say(shown, " ")?;
            say_typ(alloc, shown, typ)?;
            say(shown, "}")
        }
    }
}
