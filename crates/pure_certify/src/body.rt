//! What the body of a definition may not have.
ghost use Rattle.std.specs.Prelude.{◌↔◌, IsTrue};
ghost use Rattle.pure_certify.specs.Bodies.{HasVariable, HasExtra, HasExtraTyp};

use pure_term::{Term, TermNode};
use pure_typ::{Typ, TypNode, is_ground_typ, occurs_in_typ};

/// Whether the term has a fixed or a schematic variable.
pub fn has_variable(t: &Term) -> bool
    ensures { IsTrue result ↔ HasVariable t.now }
{
    match &t.node {
        TermNode::Const { .. } => false,
        TermNode::Free { .. } => true,
        TermNode::Var { .. } => true,
        TermNode::Bound { .. } => false,
        TermNode::Abs { body, .. } => has_variable(body),
        TermNode::App { fun, arg, .. } => has_variable(fun) || has_variable(arg),
    }
}

/// Whether the second type has a type variable that the first lacks. A part without type variables isn't looked through.
fn has_extra(typ: &Typ, t: &Typ) -> bool
    ensures { IsTrue result ↔ HasExtra typ.now t.now }
{
    if is_ground_typ(t) {
        return false;
    }
    match &t.node {
        TypNode::TFree { .. } => !occurs_in_typ(t, typ),
        TypNode::TVar { .. } => !occurs_in_typ(t, typ),
        TypNode::Con { args, .. } => {
            let args = args.as_slice();
            for arg in args {
                if has_extra(typ, arg) {
                    return true;
                }
            }
            false
        }
    }
}

/// Whether a type in the term has a type variable that the type lacks.
pub fn has_extra_typ(typ: &Typ, t: &Term) -> bool
    ensures { IsTrue result ↔ HasExtraTyp typ.now t.now }
{
    match &t.node {
        TermNode::Const { typ: own, .. } => has_extra(typ, own),
        TermNode::Free { typ: own, .. } => has_extra(typ, own),
        TermNode::Var { typ: own, .. } => has_extra(typ, own),
        TermNode::Bound { .. } => false,
        TermNode::Abs { typ: own, body, .. } => has_extra(typ, own) || has_extra_typ(typ, body),
        TermNode::App { fun, arg, .. } => has_extra_typ(typ, fun) || has_extra_typ(typ, arg),
    }
}
