//! Eta-normal forms.
ghost use Rattle.std.specs.Prelude.{◌≡◌, ◌↔◌, ◌-◌, IsTrue, IfOk};
ghost use Rattle.pure_definitions.specs.Terms.Term.{App, Bound};
ghost use Rattle.pure_definitions.specs.Reduction.Eta.{IsEtaNormalForm};
ghost use Rattle.pure_eta.specs.EtaForm.{is_loose, contracted, eta_form, lower_by, Lacks, IsBare};

use crate::long::application;
use pure_term::{Term, TermNode, Typ, copied, loose_above_of};
use std::alloc::{AllocError, Global};
use std::sync::Arc;

/// The eta-normal form of the term: no subterm of it is `%x. f x` with x not in f.
pub fn eta_norm(alloc: Global, t: &Term) -> Result<Term, AllocError>
    ensures { IfOk result (λ u. IsEtaNormalForm t.now u) }
{
    let t = copied(alloc, t)?;
    let normal = lowered(alloc, reduced(alloc, &t)?)?;
    Ok(normal.copy(alloc)?)
}

/// A term from which so many abstractions around it were contracted: its loose bound variables are still to be lowered by as many, in one walk. None below `free` is loose.
#[derive(Drop)]
struct Bare {
    term: Arc<Term>,
    gone: u64,
    free: u64,
}

/// The term, reduced by eta steps.
fn reduced(alloc: Global, t: &Arc<Term>) -> Result<Bare, AllocError>
    ensures { IfOk result (λ bare. IsBare (eta_form t.now.value) bare.term.value bare.gone bare.free) }
{
    let whole: &Term = t;
    match &whole.node {
        TermNode::Abs { typ, body, .. } => {
            let b: &Term = body;
            if let TermNode::App { fun, arg, .. } = &b.node {
                let function = reduced(alloc, fun)?;
                let argument = lowered(alloc, reduced(alloc, arg)?)?;
                return contract_application(alloc, typ, function, argument);
            }
            let body = lowered(alloc, reduced(alloc, body)?)?;
            Ok(as_it_is(contract(alloc, typ, body)?))
        }
        TermNode::App { fun, arg, .. } => {
            let function = lowered(alloc, reduced(alloc, fun)?)?;
            let argument = lowered(alloc, reduced(alloc, arg)?)?;
            Ok(as_it_is(application(alloc, function, argument)?))
        }
        _ => Ok(as_it_is(Arc::try_clone(t)?)),
    }
}

/// The term, of which nothing is to be lowered.
fn as_it_is(term: Arc<Term>) -> Bare
    ensures { IsBare term.value result.term.value result.gone result.free }
{
    Bare {
        term,
        gone: 0,
        free: 0,
    }
}

/// The term with its loose bound variables lowered.
fn lowered(alloc: Global, bare: Bare) -> Result<Arc<Term>, AllocError>
    ensures { IfOk result (λ t. t.value ≡ lower_by bare.gone 0 bare.term.value) }
{
    if bare.gone == 0 {
        return Ok(bare.term);
    }
    lower(alloc, &bare.term, bare.gone, 0)
}

/// The term with each loose bound variable from this place on lowered by so much. A part in which none is loose there or above is handed back as it is.
fn lower(alloc: Global, t: &Arc<Term>, by: u64, from: u64) -> Result<Arc<Term>, AllocError>
    ensures { IfOk result (λ u. u.value ≡ lower_by by from t.now.value) }
{
    let whole: &Term = t;
    if loose_above_of(whole) <= from {
        return Arc::try_clone(t);
    }
    match &whole.node {
        TermNode::Bound { place } => {
            let place = place_below(*place, by);
            Ok(Arc::new(
                alloc,
                Term {
                    node: TermNode::Bound { place },
                },
            )?)
        }
        TermNode::Abs { typ, body, .. } => {
            let typ = typ.copy(alloc)?;
            let body = lower(alloc, body, by, from + 1)?;
            Ok(Arc::new(alloc, Term::abs(typ, body))?)
        }
        TermNode::App { fun, arg, .. } => {
            let fun = lower(alloc, fun, by, from)?;
            let arg = lower(alloc, arg, by, from)?;
            Ok(Arc::new(alloc, Term::app(fun, arg))?)
        }
        _ => Arc::try_clone(t),
    }
}

/// The place, lowered by so much.
fn place_below(place: u32, by: u64) -> u32
    ensures { result ≡ place - by }
{
    u64::from(place).saturating_sub(by) as u32
}

/// How many bound variables from this place on aren't loose in the term, up to the first that is.
fn free_from(t: &Term, from: u64) -> u64
    ensures { Lacks from result t.now }
{
    if loose_above_of(t) <= from {
        return u64::MAX;
    }
    match &t.node {
        TermNode::Bound { place } => u64::from(*place) - from,
        TermNode::Abs { body, .. } => free_from(body, from + 1),
        TermNode::App { fun, arg, .. } => free_from(fun, from).min(free_from(arg, from)),
        _ => u64::MAX,
    }
}

/// The same from 0 on, where it isn't known that the next to go isn't loose.
fn free_of(bare: &Bare) -> u64
    requires { Lacks 0 bare.now.free bare.now.term.value }
    ensures { Lacks 0 result bare.now.term.value }
{
    if bare.gone < bare.free {
        return bare.free;
    }
    free_from(&bare.term, 0)
}

/// The abstraction of the function applied to the argument, contracted where it can be. Whether the abstraction's variable is loose in the function is mostly known from where it was last looked for.
fn contract_application(
    alloc: Global,
    typ: &Typ,
    function: Bare,
    argument: Arc<Term>,
) -> Result<Bare, AllocError>
    requires { Lacks 0 function.free function.term.value }
    ensures { IfOk result (λ bare. IsBare (contracted typ.now (App (lower_by function.gone 0 function.term.value) argument.value)) bare.term.value bare.gone bare.free) }
{
    if is_bound_0(&argument) {
        let free = free_of(&function);
        if function.gone < free {
            return Ok(Bare {
                term: function.term,
                gone: function.gone + 1,
                free,
            });
        }
    }
    let body = application(alloc, lowered(alloc, function)?, argument)?;
    Ok(as_it_is(contract(alloc, typ, body)?))
}

/// The abstraction of the body, contracted where it can be.
fn contract(alloc: Global, typ: &Typ, body: Arc<Term>) -> Result<Arc<Term>, AllocError>
    ensures { IfOk result (λ u. u.value ≡ contracted typ.now body.value) }
{
    let b: &Term = &body;
    if let TermNode::App { fun, arg, .. } = &b.node {
        if is_bound_0(arg) && !is_loose_at(fun, 0) {
            return lower(alloc, fun, 1, 0);
        }
    }
    let typ = typ.copy(alloc)?;
    Ok(Arc::new(alloc, Term::abs(typ, body))?)
}

/// Whether the term is the innermost bound variable.
fn is_bound_0(t: &Term) -> bool
    ensures { IsTrue result ↔ (t.now ≡ Bound 0) }
{
    match &t.node {
        TermNode::Bound { place } => *place == 0,
        _ => false,
    }
}

/// Whether the bound variable of this place is loose in the term.
fn is_loose_at(t: &Term, place: u64) -> bool
    ensures { result ≡ is_loose place t.now }
{
    if loose_above_of(t) <= place {
        return false;
    }
    match &t.node {
        TermNode::Bound { place: bound } => u64::from(*bound) == place,
        TermNode::Abs { body, .. } => is_loose_at(body, place + 1),
        TermNode::App { fun, arg, .. } => is_loose_at(fun, place) || is_loose_at(arg, place),
        _ => false,
    }
}
