//! Whether a tree that was read is a term's or a type's own, places and types aside.
use pure_print::{print_term, print_typ};
use pure_read::{Raw, RawNode, RawTyp, RawTypNode};
use pure_term::{Name, Names, Term, TermNode, Typ, TypNode};
use std::alloc::{AllocError, Global};

/// Whether the text is `_` and the number.
fn is_number(alloc: Global, text: &[u8], number: u32) -> Result<bool, AllocError> {
    match text {
        [b'_', digits @ ..] => Ok(digits == number.to_string(alloc)?.as_bytes()),
        _ => Ok(false),
    }
}

/// Whether the tree is that of the term under so many binders: a name is as it is printed, a bound variable has the
/// number of its binder, and no binder has a type.
#[cycle(is_own)]
pub(crate) fn is_own(
    alloc: Global,
    names: &Names,
    binders: u32,
    raw: &Raw,
    term: &Term,
) -> Result<bool, AllocError> {
    match (&raw.node, &term.node) {
        (
            RawNode::App { fun, arg, .. },
            TermNode::App {
                fun: function,
                arg: argument,
                ..
            },
        ) => {
            if !is_own(alloc, names, binders, fun, function)? {
                return Ok(false);
            }
            is_own(alloc, names, binders, arg, argument)
        }
        (RawNode::Abs { var, typ, body, .. }, TermNode::Abs { body: inside, .. }) => {
            if typ.is_some() || !is_number(alloc, var.bytes(), binders)? {
                return Ok(false);
            }
            is_own(alloc, names, binders.saturating_add(1), body, inside)
        }
        (RawNode::Leaf { text, .. }, TermNode::Bound { place }) => {
            let number = match binders.checked_sub(place.saturating_add(1)) {
                Some(outside) => outside,
                None => *place,
            };
            is_number(alloc, text.bytes(), number)
        }
        (RawNode::Leaf { text, .. }, _) => {
            Ok(text.bytes() == print_term(alloc, names, term)?.bytes())
        }
        _ => Ok(false),
    }
}

/// Whether the text names the constructor; `prop` is Pure's propositions.
fn is_constructor(names: &Names, constructor: Name, is_alone: bool, text: &[u8]) -> bool {
    if is_alone && constructor.0 == 1 {
        return text == b"prop".as_slice();
    }
    match names.text(constructor) {
        Some(own) => own == text,
        None => false,
    }
}

/// Whether the tree is that of the type: a variable with its classes is as it is printed, and a constructor has its name.
#[cycle(is_own_typ)]
pub(crate) fn is_own_typ(
    alloc: Global,
    names: &Names,
    raw: &RawTyp,
    typ: &Typ,
) -> Result<bool, AllocError> {
    match (&raw.node, &typ.node) {
        (
            RawTypNode::Con { name, args, .. },
            TypNode::Con {
                name: own,
                args: types,
            },
        ) => {
            let types = types.as_slice();
            if args.len() != types.len() {
                return Ok(false);
            }
            for (at, arg) in args.iter().enumerate() {
                if !is_own_typ(alloc, names, arg, &types[at])? {
                    return Ok(false);
                }
            }
            Ok(is_constructor(names, *own, types.is_empty(), name.bytes()))
        }
        (RawTypNode::Var { text, .. }, _) => {
            let printed = print_typ(alloc, names, typ)?;
            Ok(printed.bytes().starts_with(text.bytes()))
        }
        _ => Ok(false),
    }
}
