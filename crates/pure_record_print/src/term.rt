//! Terms as they are printed.
ghost use Rattle.std.specs.Prelude.{◌≡◌, ◌++◌, OnOk};
ghost use Rattle.pure_record_print.specs.Printed as spec;

use crate::name::{push_constant_name, push_name, push_numeral, push_variable};
use crate::typ::{push_typ, push_typed};
use pure_term::{Names, Term, TermNode};
use std::alloc::AllocError;

/// Appends a term.
pub(crate) fn push_term(text: &mut Vec<u8>, names: &Names, t: &Term) -> Result<(), AllocError>
    ensures { OnOk result (text.new.items ≡ text.old.items ++ spec.term_text names.now t.now) }
{
    match &t.node {
        TermNode::Const { name, typ } => {
            text.extend_from_slice(b"[ ")?;
            push_constant_name(text, names, *name)?;
            push_typed(text, names, typ, b"] ")
        }
        TermNode::Free { name, typ } => {
            text.extend_from_slice(b"{ ")?;
            push_name(text, names, *name)?;
            push_typed(text, names, typ, b"} ")
        }
        TermNode::Var { name, index, typ } => {
            text.extend_from_slice(b"{ ?")?;
            push_variable(text, names, *name, *index)?;
            push_typed(text, names, typ, b"} ")
        }
        TermNode::Bound { place } => {
            text.extend_from_slice(b"_")?;
            push_numeral(text, *place)
        }
        TermNode::Abs { typ, body, .. } => {
            text.extend_from_slice(b"( % ")?;
            push_typ(text, names, typ)?;
            text.extend_from_slice(b"; ")?;
            push_term(text, names, body)?;
            text.extend_from_slice(b") ")
        }
        TermNode::App { fun, arg, .. } => {
            text.extend_from_slice(b"( ")?;
            push_term(text, names, fun)?;
            push_term(text, names, arg)?;
            text.extend_from_slice(b") ")
        }
    }
}
