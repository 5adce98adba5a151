//! Types and terms in which nothing is fixed.
ghost use Rattle.std.specs.Prelude.{◌↔◌, IsTrue};
ghost use Rattle.pure_logic.specs.Content.{IsSchematicTyp, IsSchematic};

use pure_term::{Term, TermNode, Typ, TypNode};

/// Whether no fixed type variable is in the type.
pub(crate) fn is_schematic_typ(t: &Typ) -> bool
    ensures { IsTrue result ↔ IsSchematicTyp t.now }
{
    match &t.node {
        TypNode::TFree { .. } => false,
        TypNode::TVar { .. } => true,
        TypNode::Con { args, .. } => {
            let args = args.as_slice();
            for arg in args {
                if !is_schematic_typ(arg) {
                    return false;
                }
            }
            true
        }
    }
}

/// Whether no fixed variable and no fixed type variable is in the term.
pub(crate) fn is_schematic(t: &Term) -> bool
    ensures { IsTrue result ↔ IsSchematic t.now }
{
    match &t.node {
        TermNode::Const { typ, .. } => is_schematic_typ(typ),
        TermNode::Free { .. } => false,
        TermNode::Var { typ, .. } => is_schematic_typ(typ),
        TermNode::Bound { .. } => true,
        TermNode::Abs { typ, body, .. } => is_schematic_typ(typ) && is_schematic(body),
        TermNode::App { fun, arg, .. } => is_schematic(fun) && is_schematic(arg),
    }
}
