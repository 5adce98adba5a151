//! Fixed type variables made schematic.
ghost use Rattle.std.specs.Prelude.{◌≡◌, IfOk};
ghost use Rattle.pure_definitions.specs.Terms.Subst.{typ_instance, inst_typ};
ghost use Rattle.pure_logic.specs.Content.{schematic_typ_variable};

use pure_term::{Term, TermNode, Typ, TypNode, copied, is_ground_typ};
use std::alloc::{AllocError, Global};
use std::sync::Arc;

/// The type with its fixed type variables made schematic: a ground one is handed back as it is.
pub(crate) fn schematic_typ(alloc: Global, t: &Typ) -> Result<Typ, AllocError>
    ensures { IfOk result (λ u. u ≡ typ_instance schematic_typ_variable t.now) }
{
    if is_ground_typ(t) {
        return t.copy(alloc);
    }
    match &t.node {
        TypNode::TFree { name, sort } => {
            let sort = sort.copy(alloc)?;
            Ok(Typ {
                node: TypNode::TVar {
                    name: *name,
                    index: 0,
                    sort,
                },
            })
        }
        TypNode::TVar { .. } => t.copy(alloc),
        TypNode::Con { name, args } => {
            let args = args.as_slice();
            let mut images = Vec::with_capacity(alloc, args.len())?;
            for arg in args {
                images.push(schematic_typ(alloc, arg)?)?;
            }
            Typ::constructed(alloc, *name, images)
        }
    }
}

/// The term with its fixed type variables made schematic, in a block of its own.
pub(crate) fn schematic_term(alloc: Global, t: &Term) -> Result<Arc<Term>, AllocError>
    ensures { IfOk result (λ u. u.value ≡ inst_typ schematic_typ_variable t.now) }
{
    match &t.node {
        TermNode::Const { name, typ } => {
            let typ = schematic_typ(alloc, typ)?;
            let node = TermNode::Const { name: *name, typ };
            Ok(Arc::new(alloc, Term { node })?)
        }
        TermNode::Free { name, typ } => {
            let typ = schematic_typ(alloc, typ)?;
            let node = TermNode::Free { name: *name, typ };
            Ok(Arc::new(alloc, Term { node })?)
        }
        TermNode::Var { name, index, typ } => {
            let typ = schematic_typ(alloc, typ)?;
            let node = TermNode::Var {
                name: *name,
                index: *index,
                typ,
            };
            Ok(Arc::new(alloc, Term { node })?)
        }
        TermNode::Bound { .. } => copied(alloc, t),
        TermNode::Abs { typ, body, .. } => {
            let typ = schematic_typ(alloc, typ)?;
            let body = schematic_term(alloc, body)?;
            Ok(Arc::new(alloc, Term::abs(typ, body))?)
        }
        TermNode::App { fun, arg, .. } => {
            let fun = schematic_term(alloc, fun)?;
            let arg = schematic_term(alloc, arg)?;
            Ok(Arc::new(alloc, Term::app(fun, arg))?)
        }
    }
}
