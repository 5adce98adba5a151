//! Terms with raised indexes.
ghost use Rattle.std.specs.Prelude.{◌≡◌, ◌+◌, IfOk};
ghost use Rattle.pure_definitions.specs.Terms.Subst.{typ_instance, term_instance};
ghost use Rattle.pure_logic.specs.Laws.Maps.{raised_typs, raised_terms};

use pure_term::{Term, TermNode, Typ, TypNode, copied, index_above_of, index_above_of_typ};
use std::alloc::{AllocError, Global};
use std::sync::Arc;

/// The index, raised. One beyond 32 bits is want of memory.
fn raised_index(index: u32, by: u32) -> Result<u32, AllocError>
    ensures { IfOk result (λ i. i ≡ index + by) }
{
    match index.checked_add(by) {
        Some(raised) => Ok(raised),
        None => Err(AllocError),
    }
}

/// The type with its indexes raised. One without schematic variables is handed back as it is.
fn raised_typ(alloc: Global, by: u32, t: &Typ) -> Result<Typ, AllocError>
    ensures { IfOk result (λ u. u ≡ typ_instance (raised_typs by) t.now) }
{
    if index_above_of_typ(t) == 0 {
        return t.copy(alloc);
    }
    match &t.node {
        TypNode::TVar { name, index, sort } => {
            let index = raised_index(*index, by)?;
            let sort = sort.copy(alloc)?;
            let name = *name;
            Ok(Typ {
                node: TypNode::TVar { name, index, sort },
            })
        }
        TypNode::Con { name, args } => {
            let args = args.as_slice();
            let mut images = Vec::with_capacity(alloc, args.len())?;
            for arg in args {
                images.push(raised_typ(alloc, by, arg)?)?;
            }
            Typ::constructed(alloc, *name, images)
        }
        TypNode::TFree { .. } => t.copy(alloc),
    }
}

/// The part with its indexes raised. One without schematic variables is handed back as it is.
fn raised_part(alloc: Global, by: u32, t: &Arc<Term>) -> Result<Arc<Term>, AllocError>
    ensures { IfOk result (λ u. u.value ≡ term_instance (raised_typs by) (raised_terms by) t.now.value) }
{
    let whole: &Term = t;
    if index_above_of(whole) == 0 {
        return Arc::try_clone(t);
    }
    match &whole.node {
        TermNode::Const { name, typ } => {
            let typ = raised_typ(alloc, by, typ)?;
            let node = TermNode::Const { name: *name, typ };
            Ok(Arc::new(alloc, Term { node })?)
        }
        TermNode::Free { name, typ } => {
            let typ = raised_typ(alloc, by, typ)?;
            let node = TermNode::Free { name: *name, typ };
            Ok(Arc::new(alloc, Term { node })?)
        }
        TermNode::Var { name, index, typ } => {
            let index = raised_index(*index, by)?;
            let typ = raised_typ(alloc, by, typ)?;
            let node = TermNode::Var {
                name: *name,
                index,
                typ,
            };
            Ok(Arc::new(alloc, Term { node })?)
        }
        TermNode::Bound { .. } => Arc::try_clone(t),
        TermNode::Abs { typ, body, .. } => {
            let typ = raised_typ(alloc, by, typ)?;
            let body = raised_part(alloc, by, body)?;
            Ok(Arc::new(alloc, Term::abs(typ, body))?)
        }
        TermNode::App { fun, arg, .. } => {
            let fun = raised_part(alloc, by, fun)?;
            let arg = raised_part(alloc, by, arg)?;
            Ok(Arc::new(alloc, Term::app(fun, arg))?)
        }
    }
}

/// The term with so much added to the indexes of its schematic variables and of its schematic type variables.
pub fn raised(alloc: Global, by: u32, t: &Term) -> Result<Term, AllocError>
    ensures { IfOk result (λ u. u ≡ term_instance (raised_typs by) (raised_terms by) t.now) }
{
    let whole = copied(alloc, t)?;
    let raised = raised_part(alloc, by, &whole)?;
    raised.copy(alloc)
}
