//! Fixed variables and fixed type variables made schematic.
ghost use Rattle.std.specs.Prelude.{◌≡◌, IfOk};
ghost use Rattle.pure_definitions.specs.Terms.Term as tree;
ghost use Rattle.pure_definitions.specs.Terms.Subst.{typ_instance};
ghost use Rattle.pure_logic.specs.Content.{schematic_typ_variable};
ghost use Rattle.pure_statements.specs.Schematic as spec;

use pure_term::{Term, TermNode, copied};
use pure_typ::{Name, Typ, TypNode, is_ground_typ};
use std::alloc::{AllocError, Global};
use std::sync::Arc;

/// The type with its fixed type variables made schematic. One without type variables is handed back as it is.
pub fn schematic_typ(alloc: Global, t: &Typ) -> Result<Typ, AllocError>
    ensures { IfOk result (λ u. u ≡ typ_instance schematic_typ_variable t.now) }
{
    if is_ground_typ(t) {
        return t.copy(alloc);
    }
    match &t.node {
        TypNode::TFree { name, sort } => {
            let sort = sort.copy(alloc)?;
            Ok(Typ {
                node: TypNode::TVar {
                    name: *name,
                    index: 0,
                    sort,
                },
            })
        }
        TypNode::TVar { .. } => t.copy(alloc),
        TypNode::Con { name, args } => {
            let args = args.as_slice();
            let mut images = Vec::with_capacity(alloc, args.len())?;
            for arg in args {
                images.push(schematic_typ(alloc, arg)?)?;
            }
            Typ::constructed(alloc, *name, images)
        }
    }
}

/// The constant with the fixed type variables of its type made schematic.
#[inline(never)]
fn constant(alloc: Global, name: Name, typ: &Typ) -> Result<Arc<Term>, AllocError>
    ensures { IfOk result (λ u. u.value ≡ tree.Const name (typ_instance schematic_typ_variable typ.now)) }
{
    let typ = schematic_typ(alloc, typ)?;
    let node = TermNode::Const { name, typ };
    Ok(Arc::new(alloc, Term { node })?)
}

/// The schematic variable with the fixed type variables of its type made schematic.
#[inline(never)]
fn variable(alloc: Global, name: Name, index: u32, typ: &Typ) -> Result<Arc<Term>, AllocError>
    ensures { IfOk result (λ u. u.value ≡ tree.Var name index (typ_instance schematic_typ_variable typ.now)) }
{
    let typ = schematic_typ(alloc, typ)?;
    let node = TermNode::Var { name, index, typ };
    Ok(Arc::new(alloc, Term { node })?)
}

/// The abstraction of this body, with the fixed type variables of its own type made schematic.
#[inline(never)]
fn abstraction(alloc: Global, typ: &Typ, body: Arc<Term>) -> Result<Arc<Term>, AllocError>
    ensures { IfOk result (λ u. u.value ≡ tree.Abs (typ_instance schematic_typ_variable typ.now) body.value) }
{
    let typ = schematic_typ(alloc, typ)?;
    Ok(Arc::new(alloc, Term::abs(typ, body))?)
}

/// The part with its fixed variables and its fixed type variables made schematic. Bound variables, and constants whose
/// types have no type variables, are handed back as they are.
fn generalised_part(alloc: Global, t: &Arc<Term>) -> Result<Arc<Term>, AllocError>
    ensures { IfOk result (λ u. u.value ≡ spec.generalised t.now.value) }
{
    let whole: &Term = t;
    match &whole.node {
        TermNode::Const { name, typ } => {
            if is_ground_typ(typ) {
                return Arc::try_clone(t);
            }
            constant(alloc, *name, typ)
        }
        TermNode::Free { name, typ } => variable(alloc, *name, 0, typ),
        TermNode::Var { name, index, typ } => variable(alloc, *name, *index, typ),
        TermNode::Bound { .. } => Arc::try_clone(t),
        TermNode::Abs { typ, body, .. } => {
            let body = generalised_part(alloc, body)?;
            abstraction(alloc, typ, body)
        }
        TermNode::App { fun, arg, .. } => {
            let fun = generalised_part(alloc, fun)?;
            let arg = generalised_part(alloc, arg)?;
            Ok(Arc::new(alloc, Term::app(fun, arg))?)
        }
    }
}

/// The term with its fixed variables and its fixed type variables made schematic, all with the index 0.
pub fn generalised(alloc: Global, t: &Term) -> Result<Term, AllocError>
    ensures { IfOk result (λ u. u ≡ spec.generalised t.now) }
{
    let t = copied(alloc, t)?;
    let made = generalised_part(alloc, &t)?;
    Ok(made.copy(alloc)?)
}
