//! Schematic variables and schematic type variables fixed again.
ghost use Rattle.std.specs.Prelude.{◌≡◌, IfOk};
ghost use Rattle.pure_definitions.specs.Terms.Subst.{typ_instance};
ghost use Rattle.pure_declare.specs.Fixing.{fixed_typ_variable};
ghost use Rattle.pure_declare.specs.Fixing as spec;

use pure_term::{Term, TermNode, index_above_of};
use pure_typ::{Typ, TypNode, index_above_of_typ};
use std::alloc::{AllocError, Global};
use std::sync::Arc;

/// The type with its schematic type variables fixed: one without any is handed back as it is.
fn fixed_typ(alloc: Global, t: &Typ) -> Result<Typ, AllocError>
    ensures { IfOk result (λ u. u ≡ typ_instance fixed_typ_variable t.now) }
{
    if index_above_of_typ(t) == 0 {
        return t.copy(alloc);
    }
    match &t.node {
        TypNode::TVar { name, sort, .. } => {
            let sort = sort.copy(alloc)?;
            Ok(Typ {
                node: TypNode::TFree { name: *name, sort },
            })
        }
        TypNode::TFree { .. } => t.copy(alloc),
        TypNode::Con { name, args } => {
            let args = args.as_slice();
            let mut images = Vec::with_capacity(alloc, args.len())?;
            for arg in args {
                images.push(fixed_typ(alloc, arg)?)?;
            }
            Typ::constructed(alloc, *name, images)
        }
    }
}

/// A part with its schematic variables and its schematic type variables fixed: one without any is handed back as it is.
fn fixed_part(alloc: Global, t: &Arc<Term>) -> Result<Arc<Term>, AllocError>
    ensures { IfOk result (λ u. u.value ≡ spec.fixed_again t.now.value) }
{
    let whole: &Term = t;
    if index_above_of(whole) == 0 {
        return Arc::try_clone(t);
    }
    match &whole.node {
        TermNode::Const { name, typ } => {
            let typ = fixed_typ(alloc, typ)?;
            let node = TermNode::Const { name: *name, typ };
            Ok(Arc::new(alloc, Term { node })?)
        }
        TermNode::Free { name, typ } => {
            let typ = fixed_typ(alloc, typ)?;
            let node = TermNode::Free { name: *name, typ };
            Ok(Arc::new(alloc, Term { node })?)
        }
        TermNode::Var { name, typ, .. } => {
            let typ = fixed_typ(alloc, typ)?;
            let node = TermNode::Free { name: *name, typ };
            Ok(Arc::new(alloc, Term { node })?)
        }
        TermNode::Bound { .. } => Arc::try_clone(t),
        TermNode::Abs { typ, body, .. } => {
            let typ = fixed_typ(alloc, typ)?;
            let body = fixed_part(alloc, body)?;
            Ok(Arc::new(alloc, Term::abs(typ, body))?)
        }
        TermNode::App { fun, arg, .. } => {
            let fun = fixed_part(alloc, fun)?;
            let arg = fixed_part(alloc, arg)?;
            Ok(Arc::new(alloc, Term::app(fun, arg))?)
        }
    }
}

/// The term with its schematic variables and its schematic type variables fixed.
pub(crate) fn fixed_again(alloc: Global, t: &Arc<Term>) -> Result<Term, AllocError>
    ensures { IfOk result (λ u. u ≡ spec.fixed_again t.now.value) }
{
    let made = fixed_part(alloc, t)?;
    made.copy(alloc)
}
