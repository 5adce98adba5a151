//! Lifting, putting a term for bound variable 0, and abstraction over a variable.
ghost use Rattle.std.specs.Prelude.{◌≡◌, ◌+◌, ◌<◌, ◌≤◌, ◌^◌, IfOk};
ghost use Rattle.pure_definitions.specs.Terms.Term.{Abs, term_size, term_depth};
ghost use Rattle.pure_definitions.specs.Terms.Bounds.{lift_term, subst_under, subst_bound, bind_under, abstract_over};
ghost use Rattle.pure_definitions.specs.Terms.Conditions.{IsLiftable, IsPuttable, IsVariable, variable_typ};
ghost use Rattle.pure_definitions.specs.Terms.Limits.{cut_off, Leaves};
ghost use Rattle.pure_term.specs.Grown.{IsGrown};

use crate::measure::{are_same, depth, is_within, loose_above_of, size, term_leaves};
use crate::term::{Term, TermNode, copied};
use pure_typ::{Grow, MAX_DEPTH, MAX_SIZE, Typ, node_leaves, typ_leaves};
use std::alloc::{AllocError, Global};
use std::sync::Arc;

/// The term with `by` added to each loose bound variable at or above `from`.
pub fn lift(alloc: Global, t: &Term, by: u32, from: u32) -> Result<Term, Grow>
    requires { IsLiftable by from t.now }
    ensures { IsGrown (lift_term by from t.now) result }
{
    if !is_within(t) {
        return Err(Grow::Big);
    }
    let t = copied(alloc, t)?;
    let lifted = lift_under(alloc, &t, by, u64::from(from))?;
    Ok(lifted.copy(alloc)?)
}

/// The same of a part, under binders of the term. A part in which nothing is loose at `from` or above is handed back as it is.
pub fn lift_under(alloc: Global, t: &Arc<Term>, by: u32, from: u64) -> Result<Arc<Term>, AllocError>
    requires liftable { IsLiftable by from t.now.value }
    requires shallow { from + term_depth t.now.value < 2 ^ 64 }
    ensures { IfOk result (λ u. u.value ≡ lift_term by from t.now.value) }
{
    let whole: &Term = t;
    if loose_above_of(whole) <= from {
        return Arc::try_clone(t);
    }
    match &whole.node {
        TermNode::Bound { place } => {
            let node = TermNode::Bound { place: *place + by };
            Ok(Arc::new(alloc, Term { node })?)
        }
        TermNode::Abs { typ, body, .. } => {
            let typ = typ.copy(alloc)?;
            let body = lift_under(alloc, body, by, from + 1)?;
            Ok(Arc::new(alloc, Term::abs(typ, body))?)
        }
        TermNode::App { fun, arg, .. } => {
            let fun = lift_under(alloc, fun, by, from)?;
            let arg = lift_under(alloc, arg, by, from)?;
            Ok(Arc::new(alloc, Term::app(fun, arg))?)
        }
        _ => Arc::try_clone(t),
    }
}

/// The body with the argument in place of bound variable 0, and the other loose bound variables lowered by one.
pub fn subst_bound(alloc: Global, body: &Term, arg: &Term) -> Result<Term, Grow>
    requires { IsPuttable 0 arg.now body.now }
    ensures { IsGrown (subst_bound body.now arg.now) result }
{
    let arg_size = size(arg);
    let arg_depth = depth(arg);
    let Some(_) = subst_leaves(body, 0, arg, arg_size, arg_depth, MAX_SIZE, MAX_DEPTH) else {
        return Err(Grow::Big);
    };
    let (body, arg) = (copied(alloc, body)?, copied(alloc, arg)?);
    let put = put_under(alloc, &body, 0, &arg)?;
    Ok(put.copy(alloc)?)
}

/// What is left of room when the body with the argument put in place of bound variable `place` is put in.
fn subst_leaves(
    body: &Term,
    place: u32,
    arg: &Term,
    arg_size: u32,
    arg_depth: u32,
    left: u32,
    room: u32,
) -> Option<u32>
    requires arg_size { arg_size ≡ cut_off (term_size arg.now) }
    requires arg_depth { arg_depth ≡ cut_off (term_depth arg.now) }
    requires few { place + left ≤ MAX_SIZE }
    requires low { room ≤ MAX_DEPTH }
    ensures { Leaves left room (term_size (subst_under place arg.now body.now)) (term_depth (subst_under place arg.now body.now)) result }
{
    if loose_above_of(body) <= u64::from(place) {
        return term_leaves(body, left, room);
    }
    match &body.node {
        TermNode::Bound { place: bound } => {
            if *bound == place {
                node_leaves(left, room, arg_size, arg_depth)
            } else {
                node_leaves(left, room, 1, 1)
            }
        }
        TermNode::Abs { typ, body, .. } => {
            if left == 0 || room == 0 {
                return None;
            }
            let Some(rest) = typ_leaves(typ, left - 1, room - 1) else {
                return None;
            };
            subst_leaves(body, place + 1, arg, arg_size, arg_depth, rest, room - 1)
        }
        TermNode::App {
            fun,
            arg: inner,
            ..
        } => {
            if left == 0 || room == 0 {
                return None;
            }
            let Some(rest) = subst_leaves(fun, place, arg, arg_size, arg_depth, left - 1, room - 1)
            else {
                return None;
            };
            subst_leaves(inner, place, arg, arg_size, arg_depth, rest, room - 1)
        }
        _ => term_leaves(body, left, room),
    }
}

/// The body with the argument put in place of bound variable `place`. A part in which nothing is loose there or above is handed back as it is.
pub fn put_under(
    alloc: Global,
    body: &Arc<Term>,
    place: u32,
    arg: &Arc<Term>,
) -> Result<Arc<Term>, AllocError>
    requires puttable { IsPuttable place arg.now.value body.now.value }
    requires few { place + term_size (subst_under place arg.now.value body.now.value) ≤ MAX_SIZE }
    ensures { IfOk result (λ u. u.value ≡ subst_under place arg.now.value body.now.value) }
{
    let whole: &Term = body;
    if loose_above_of(whole) <= u64::from(place) {
        return Arc::try_clone(body);
    }
    match &whole.node {
        TermNode::Bound { place: bound } => {
            if *bound == place {
                return lift_under(alloc, arg, place, 0);
            }
            let node = TermNode::Bound { place: *bound - 1 };
            Ok(Arc::new(alloc, Term { node })?)
        }
        TermNode::Abs { typ, body, .. } => {
            let typ = typ.copy(alloc)?;
            let body = put_under(alloc, body, place + 1, arg)?;
            Ok(Arc::new(alloc, Term::abs(typ, body))?)
        }
        TermNode::App {
            fun,
            arg: inner,
            ..
        } => {
            let fun = put_under(alloc, fun, place, arg)?;
            let inner = put_under(alloc, inner, place, arg)?;
            Ok(Arc::new(alloc, Term::app(fun, inner))?)
        }
        _ => Arc::try_clone(body),
    }
}

/// The abstraction of the term over a fixed or schematic variable.
pub fn abstract_over(alloc: Global, t: &Term, v: &Term) -> Result<Term, Grow>
    requires variable { IsVariable v.now }
    requires liftable { IsLiftable 1 0 t.now }
    ensures { IsGrown (abstract_over t.now v.now) result }
{
    let typ = typ_of_variable(v);
    let Some(rest) = typ_leaves(typ, MAX_SIZE - 1, MAX_DEPTH - 1) else {
        return Err(Grow::Big);
    };
    let Some(_) = bind_leaves(t, v, rest, MAX_DEPTH - 1) else {
        return Err(Grow::Big);
    };
    Ok(abstraction(alloc, t, v, typ)?)
}

/// The abstraction, whose size is within the limits.
fn abstraction(alloc: Global, t: &Term, v: &Term, typ: &Typ) -> Result<Term, AllocError>
    requires liftable { IsLiftable 1 0 t.now }
    requires few { term_size (bind_under 0 v.now t.now) ≤ MAX_SIZE }
    ensures { IfOk result (λ u. u ≡ Abs typ.now (bind_under 0 v.now t.now)) }
{
    let typ = typ.copy(alloc)?;
    let body = bind(alloc, t, 0, v)?;
    Ok(Term::abs(typ, body))
}

/// The type that is written with a variable.
fn typ_of_variable(v: &Term) -> &Typ
    requires { IsVariable v.now }
    ensures { result.now ≡ variable_typ v.now }
{
    match &v.node {
        TermNode::Free { typ, .. } => typ,
        TermNode::Var { typ, .. } => typ,
        _ => unreachable!(),
    }
}

/// What is left of room when the term with the variable bound is put in: a bound variable counts as one node whatever its place.
fn bind_leaves(t: &Term, v: &Term, left: u32, room: u32) -> Option<u32>
    ensures { Leaves left room (term_size (bind_under 0 v.now t.now)) (term_depth (bind_under 0 v.now t.now)) result }
{
    match &t.node {
        TermNode::Const { .. } => term_leaves(t, left, room),
        TermNode::Free { .. } => variable_leaves(t, v, left, room),
        TermNode::Var { .. } => variable_leaves(t, v, left, room),
        TermNode::Bound { .. } => node_leaves(left, room, 1, 1),
        TermNode::Abs { typ, body, .. } => {
            if left == 0 || room == 0 {
                return None;
            }
            let Some(rest) = typ_leaves(typ, left - 1, room - 1) else {
                return None;
            };
            bind_leaves(body, v, rest, room - 1)
        }
        TermNode::App { fun, arg, .. } => {
            if left == 0 || room == 0 {
                return None;
            }
            let Some(rest) = bind_leaves(fun, v, left - 1, room - 1) else {
                return None;
            };
            bind_leaves(arg, v, rest, room - 1)
        }
    }
}

/// The same of a variable.
fn variable_leaves(t: &Term, v: &Term, left: u32, room: u32) -> Option<u32>
    requires { IsVariable t.now }
    ensures { Leaves left room (term_size (bind_under 0 v.now t.now)) (term_depth (bind_under 0 v.now t.now)) result }
{
    if are_same(v, t) {
        node_leaves(left, room, 1, 1)
    } else {
        term_leaves(t, left, room)
    }
}

/// A variable, bound where it is the one that is abstracted over.
fn bind_variable(alloc: Global, t: &Term, place: u32, v: &Term) -> Result<Arc<Term>, AllocError>
    requires { IsVariable t.now }
    ensures { IfOk result (λ u. u.value ≡ bind_under place v.now t.now) }
{
    if are_same(v, t) {
        let node = TermNode::Bound { place };
        Ok(Arc::new(alloc, Term { node })?)
    } else {
        copied(alloc, t)
    }
}

/// The term with the variable bound, under `place` binders of the term.
fn bind(alloc: Global, t: &Term, place: u32, v: &Term) -> Result<Arc<Term>, AllocError>
    requires liftable { IsLiftable 1 place t.now }
    requires few { place + term_size (bind_under place v.now t.now) ≤ MAX_SIZE }
    ensures { IfOk result (λ u. u.value ≡ bind_under place v.now t.now) }
{
    match &t.node {
        TermNode::Const { .. } => copied(alloc, t),
        TermNode::Free { .. } => bind_variable(alloc, t, place, v),
        TermNode::Var { .. } => bind_variable(alloc, t, place, v),
        TermNode::Bound { place: bound } => {
            if *bound < place {
                return copied(alloc, t);
            }
            let node = TermNode::Bound { place: *bound + 1 };
            Ok(Arc::new(alloc, Term { node })?)
        }
        TermNode::Abs { typ, body, .. } => {
            let typ = typ.copy(alloc)?;
            let body = bind(alloc, body, place + 1, v)?;
            Ok(Arc::new(alloc, Term::abs(typ, body))?)
        }
        TermNode::App { fun, arg, .. } => {
            let fun = bind(alloc, fun, place, v)?;
            let arg = bind(alloc, arg, place, v)?;
            Ok(Arc::new(alloc, Term::app(fun, arg))?)
        }
    }
}
