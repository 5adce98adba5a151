//! Instances of terms by finite maps.
ghost use Rattle.std.specs.Prelude.{◌≡◌, IfOk};
ghost use Rattle.pure_definitions.specs.Terms.Term.{Const, Free, Var, Abs, App, term_size, term_depth};
ghost use Rattle.pure_definitions.specs.Terms.Subst.{typ_image, term_image, typ_instance, inst_typ, inst_term};
ghost use Rattle.pure_definitions.specs.Terms.Limits.{Leaves};
ghost use Rattle.pure_term.specs.Grown.{IsGrown};

use crate::maps::TermMap;
use crate::measure::{index_above_of, term_leaves};
use crate::term::{Term, TermNode, copied};
use pure_typ::{
    Grow, MAX_DEPTH, MAX_SIZE, Name, Typ, TypMap, instance_leaves, instance_of, node_leaves,
    typ_leaves,
};
use std::alloc::{AllocError, Global};
use std::sync::Arc;

/// The term under a type map: each variable in its types replaced, all at once.
pub fn inst_typ(alloc: Global, t: &Term, map: &TypMap) -> Result<Term, Grow>
    ensures { IsGrown (inst_typ (typ_image map.now) t.now) result }
{
    let Some(_) = inst_typ_leaves(t, map, MAX_SIZE, MAX_DEPTH) else {
        return Err(Grow::Big);
    };
    let t = copied(alloc, t)?;
    let made = retyped(alloc, &t, map)?;
    Ok(made.copy(alloc)?)
}

fn inst_typ_leaves(t: &Term, binds: &TypMap, left: u32, room: u32) -> Option<u32>
    ensures { Leaves left room (term_size (inst_typ (typ_image binds.now) t.now)) (term_depth (inst_typ (typ_image binds.now) t.now)) result }
{
    if index_above_of(t) == 0 {
        return term_leaves(t, left, room);
    }
    if left == 0 {
        return None;
    }
    if room == 0 {
        return None;
    }
    match &t.node {
        TermNode::Const { typ, .. } => instance_leaves(typ, binds, left - 1, room - 1),
        TermNode::Free { typ, .. } => instance_leaves(typ, binds, left - 1, room - 1),
        TermNode::Var { typ, .. } => instance_leaves(typ, binds, left - 1, room - 1),
        TermNode::Bound { .. } => Some(left - 1),
        TermNode::Abs { typ, body, .. } => {
            let Some(rest) = instance_leaves(typ, binds, left - 1, room - 1) else {
                return None;
            };
            inst_typ_leaves(body, binds, rest, room - 1)
        }
        TermNode::App { fun, arg, .. } => {
            let Some(rest) = inst_typ_leaves(fun, binds, left - 1, room - 1) else {
                return None;
            };
            inst_typ_leaves(arg, binds, rest, room - 1)
        }
    }
}

/// A constant of this name whose type is the instance. What isn't the recursion stands apart in functions that aren't inlined, so that it takes less stack.
#[inline(never)]
fn retyped_const(
    alloc: Global,
    name: Name,
    typ: &Typ,
    binds: &TypMap,
) -> Result<Arc<Term>, AllocError>
    ensures { IfOk result (λ u. u.value ≡ Const name (typ_instance (typ_image binds.now) typ.now)) }
{
    let typ = instance_of(alloc, typ, binds)?;
    let node = TermNode::Const { name, typ };
    Ok(Arc::new(alloc, Term { node })?)
}

/// A fixed variable whose type is the instance.
#[inline(never)]
fn retyped_free(
    alloc: Global,
    name: Name,
    typ: &Typ,
    binds: &TypMap,
) -> Result<Arc<Term>, AllocError>
    ensures { IfOk result (λ u. u.value ≡ Free name (typ_instance (typ_image binds.now) typ.now)) }
{
    let typ = instance_of(alloc, typ, binds)?;
    let node = TermNode::Free { name, typ };
    Ok(Arc::new(alloc, Term { node })?)
}

/// A schematic variable whose type is the instance.
#[inline(never)]
fn retyped_var(
    alloc: Global,
    name: Name,
    index: u32,
    typ: &Typ,
    binds: &TypMap,
) -> Result<Arc<Term>, AllocError>
    ensures { IfOk result (λ u. u.value ≡ Var name index (typ_instance (typ_image binds.now) typ.now)) }
{
    let typ = instance_of(alloc, typ, binds)?;
    let node = TermNode::Var { name, index, typ };
    Ok(Arc::new(alloc, Term { node })?)
}

/// An abstraction over a variable whose type is the instance.
#[inline(never)]
fn retyped_abs(
    alloc: Global,
    typ: &Typ,
    body: Arc<Term>,
    binds: &TypMap,
) -> Result<Arc<Term>, AllocError>
    ensures { IfOk result (λ u. u.value ≡ Abs (typ_instance (typ_image binds.now) typ.now) body.value) }
{
    let typ = instance_of(alloc, typ, binds)?;
    Ok(Arc::new(alloc, Term::abs(typ, body))?)
}

/// An abstraction over a variable of this type.
#[inline(never)]
fn abstraction(alloc: Global, typ: &Typ, body: Arc<Term>) -> Result<Arc<Term>, AllocError>
    ensures { IfOk result (λ u. u.value ≡ Abs typ.now body.value) }
{
    let typ = typ.copy(alloc)?;
    Ok(Arc::new(alloc, Term::abs(typ, body))?)
}

/// An application.
#[inline(never)]
fn application(alloc: Global, fun: Arc<Term>, arg: Arc<Term>) -> Result<Arc<Term>, AllocError>
    ensures { IfOk result (λ u. u.value ≡ App fun.value arg.value) }
{
    Ok(Arc::new(alloc, Term::app(fun, arg))?)
}

/// A part under a type map; one without schematic variables is handed back as it is.
pub fn retyped(alloc: Global, t: &Arc<Term>, binds: &TypMap) -> Result<Arc<Term>, AllocError>
    ensures { IfOk result (λ u. u.value ≡ inst_typ (typ_image binds.now) t.now.value) }
{
    let whole: &Term = t;
    if index_above_of(whole) == 0 {
        return Arc::try_clone(t);
    }
    match &whole.node {
        TermNode::Const { name, typ } => retyped_const(alloc, *name, typ, binds),
        TermNode::Free { name, typ } => retyped_free(alloc, *name, typ, binds),
        TermNode::Var { name, index, typ } => retyped_var(alloc, *name, *index, typ, binds),
        TermNode::Bound { .. } => Arc::try_clone(t),
        TermNode::Abs { typ, body, .. } => {
            let body = retyped(alloc, body, binds)?;
            retyped_abs(alloc, typ, body, binds)
        }
        TermNode::App { fun, arg, .. } => {
            let fun = retyped(alloc, fun, binds)?;
            let arg = retyped(alloc, arg, binds)?;
            application(alloc, fun, arg)
        }
    }
}

/// The term under a term map: each variable replaced by its image, all at once. Images aren't lifted.
pub fn inst_term(alloc: Global, t: &Term, map: &TermMap) -> Result<Term, Grow>
    ensures { IsGrown (inst_term (term_image map.now) t.now) result }
{
    let Some(_) = inst_term_leaves(t, map, MAX_SIZE, MAX_DEPTH) else {
        return Err(Grow::Big);
    };
    let t = copied(alloc, t)?;
    let made = replaced(alloc, &t, map)?;
    Ok(made.copy(alloc)?)
}

fn inst_term_leaves(t: &Term, binds: &TermMap, left: u32, room: u32) -> Option<u32>
    ensures { Leaves left room (term_size (inst_term (term_image binds.now) t.now)) (term_depth (inst_term (term_image binds.now) t.now)) result }
{
    if index_above_of(t) == 0 {
        return term_leaves(t, left, room);
    }
    match &t.node {
        TermNode::Const { .. } => term_leaves(t, left, room),
        TermNode::Free { .. } => term_leaves(t, left, room),
        TermNode::Var { name, index, typ } => match binds.find(*name, *index, typ) {
            Some(image) => term_leaves(image, left, room),
            None => term_leaves(t, left, room),
        },
        TermNode::Bound { .. } => node_leaves(left, room, 1, 1),
        TermNode::Abs { typ, body, .. } => {
            if left == 0 || room == 0 {
                return None;
            }
            let Some(rest) = typ_leaves(typ, left - 1, room - 1) else {
                return None;
            };
            inst_term_leaves(body, binds, rest, room - 1)
        }
        TermNode::App { fun, arg, .. } => {
            if left == 0 || room == 0 {
                return None;
            }
            let Some(rest) = inst_term_leaves(fun, binds, left - 1, room - 1) else {
                return None;
            };
            inst_term_leaves(arg, binds, rest, room - 1)
        }
    }
}

/// A part under a term map; one without schematic variables is handed back as it is.
pub fn replaced(alloc: Global, t: &Arc<Term>, binds: &TermMap) -> Result<Arc<Term>, AllocError>
    ensures { IfOk result (λ u. u.value ≡ inst_term (term_image binds.now) t.now.value) }
{
    let whole: &Term = t;
    if index_above_of(whole) == 0 {
        return Arc::try_clone(t);
    }
    match &whole.node {
        TermNode::Const { .. } => Arc::try_clone(t),
        TermNode::Free { .. } => Arc::try_clone(t),
        TermNode::Var { name, index, typ } => match binds.find(*name, *index, typ) {
            Some(image) => copied(alloc, image),
            None => Arc::try_clone(t),
        },
        TermNode::Bound { .. } => Arc::try_clone(t),
        TermNode::Abs { typ, body, .. } => {
            let body = replaced(alloc, body, binds)?;
            abstraction(alloc, typ, body)
        }
        TermNode::App { fun, arg, .. } => {
            let fun = replaced(alloc, fun, binds)?;
            let arg = replaced(alloc, arg, binds)?;
            application(alloc, fun, arg)
        }
    }
}
