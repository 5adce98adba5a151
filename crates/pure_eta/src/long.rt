//! Long forms.
ghost use Rattle.std.specs.Prelude.{◌≡◌, [], false, IfOk};
ghost use Rattle.pure_definitions.specs.Terms.Term as term;
ghost use Rattle.pure_definitions.specs.Terms.Bounds.{lift_term};
ghost use Rattle.pure_definitions.specs.Terms.Typing.{HasType};
ghost use Rattle.pure_definitions.specs.Reduction.Beta.{IsBetaNormal};
ghost use Rattle.pure_definitions.specs.Reduction.Eta.{arrow_count, IsLongForm};
ghost use Rattle.pure_definitions.specs.Types.Typ as tree;
ghost use Rattle.pure_term.specs.Scope.{scope_typs};
ghost use Rattle.pure_eta.specs.LongTerm.{front_typ, expanded, wrapped, expanded_at, long_term};
ghost use Rattle.pure_eta.specs.Answer.{IsLongAnswer};

use crate::expanded::is_expanded;
use crate::fits::long_fits;
use crate::front::front_typ_of;
use pure_term::{Grow, MAX_SIZE, Scope, Term, TermNode, Typ, copied, loose_above_of};
use std::alloc::{AllocError, Global};
use std::sync::Arc;

/// The long form of a beta-normal term that has a type under no binders: the beta-normal form in which every subterm that isn't applied has as many abstractions as its type has arrows.
/// `Big` where it isn't within the limits, which is found before it is made.
pub fn long_form(alloc: Global, t: &Term) -> Result<Term, Grow>
    requires typed { (T : tree.Typ) × HasType [] t.now T }
    requires normal { IsBetaNormal t.now }
    ensures { IsLongAnswer t.now result }
{
    let scope = Scope::Empty;
    let Some(_) = long_fits(t, &scope, false, MAX_SIZE) else {
        return Err(Grow::Big);
    };
    let t = copied(alloc, t)?;
    let long = long_under(alloc, &t, &scope)?;
    Ok(long.copy(alloc)?)
}

/// The long form of a beta-normal term that has a type under no binders. It isn't limited.
pub fn lengthened(alloc: Global, t: &Term) -> Result<Term, AllocError>
    requires typed { (T : tree.Typ) × HasType [] t.now T }
    requires normal { IsBetaNormal t.now }
    ensures { IfOk result (IsLongForm t.now) }
{
    let scope = Scope::Empty;
    let t = copied(alloc, t)?;
    let long = long_under(alloc, &t, &scope)?;
    Ok(long.copy(alloc)?)
}

/// The long form of a beta-normal term in its scope, where it isn't applied. It isn't limited; a term that is its own is handed back.
pub fn long_under(alloc: Global, t: &Arc<Term>, scope: &Scope) -> Result<Arc<Term>, AllocError>
    ensures { IfOk result (λ u. u.value ≡ long_term false (scope_typs scope.now) t.now.value) }
{
    if is_expanded(t, scope, false) {
        return Arc::try_clone(t);
    }
    lengthen(alloc, t, scope, false)
}

/// The long form of the term in its scope, as a function that is applied or not.
fn lengthen(
    alloc: Global,
    t: &Arc<Term>,
    scope: &Scope,
    is_applied: bool,
) -> Result<Arc<Term>, AllocError>
    ensures { IfOk result (λ u. u.value ≡ long_term is_applied (scope_typs scope.now) t.now.value) }
{
    let whole: &Term = t;
    let front = match &whole.node {
        TermNode::Abs { typ, body, .. } => {
            let body = lengthen(alloc, body, &Scope::Under(typ, &*scope), false)?;
            return abstraction(alloc, typ, body);
        }
        TermNode::App { fun, arg, .. } => {
            let function = lengthen(alloc, fun, scope, true)?;
            let argument = lengthen(alloc, arg, scope, false)?;
            application(alloc, function, argument)?
        }
        _ => Arc::try_clone(t)?,
    };
    if is_applied {
        return Ok(front);
    }
    match front_typ_of(whole, &*scope) {
        Some(typ) => expand(alloc, typ, front),
        None => Ok(front),
    }
}

/// The abstraction of the body over the type.
fn abstraction(alloc: Global, typ: &Typ, body: Arc<Term>) -> Result<Arc<Term>, AllocError>
    ensures { IfOk result (λ u. u.value ≡ term.Abs typ.now body.value) }
{
    let typ = typ.copy(alloc)?;
    Ok(Arc::new(alloc, Term::abs(typ, body))?)
}

/// The application of the function.
pub fn application(
    alloc: Global,
    function: Arc<Term>,
    argument: Arc<Term>,
) -> Result<Arc<Term>, AllocError>
    ensures { IfOk result (λ u. u.value ≡ term.App function.value argument.value) }
{
    Ok(Arc::new(alloc, Term::app(function, argument))?)
}

/// The term under an abstraction for each arrow of the type, and applied to their variables, each expanded at its own type.
fn expand(alloc: Global, typ: &Typ, t: Arc<Term>) -> Result<Arc<Term>, AllocError>
    ensures { IfOk result (λ u. u.value ≡ expanded typ.now t.value) }
{
    let arrows = count_arrows(typ)?;
    if arrows == 0 {
        return Ok(t);
    }
    let raised = raise(alloc, &t, arrows, 0)?;
    Ok(wrap(alloc, typ, raised, arrows)?)
}

/// How many arrows the type has. 2 ^ 32, which no memory holds, are want of memory.
fn count_arrows(typ: &Typ) -> Result<u32, AllocError>
    ensures { IfOk result (λ count. count ≡ arrow_count typ.now) }
{
    let Some((_, range)) = typ.as_arrow() else {
        return Ok(0);
    };
    let Some(count) = count_arrows(range)?.checked_add(1) else {
        return Err(AllocError);
    };
    Ok(count)
}

/// The term, which was raised over all abstractions that come, under them and applied to their variables. A variable is raised as it is made.
fn wrap(alloc: Global, typ: &Typ, t: Arc<Term>, left: u32) -> Result<Arc<Term>, AllocError>
    requires { left ≡ arrow_count typ.now }
    ensures { IfOk result (λ u. u.value ≡ wrapped typ.now left t.value) }
{
    let Some((domain, range)) = typ.as_arrow() else {
        return Ok(t);
    };
    let inside = count_arrows(domain)?;
    let Some(place) = inside.checked_add(left - 1) else {
        return Err(AllocError);
    };
    let node = TermNode::Bound { place };
    let variable = Arc::new(alloc, Term { node })?;
    let argument = wrap(alloc, domain, variable, inside)?;
    let applied = application(alloc, t, argument)?;
    let body = wrap(alloc, range, applied, left - 1)?;
    abstraction(alloc, domain, body)
}

/// The term with each loose bound variable from this place on raised by so much. A part in which none is loose there or above is handed back as it is. Beyond 2 ^ 32 binders, which no memory holds, it is want of memory.
fn raise(alloc: Global, t: &Arc<Term>, by: u32, from: u64) -> Result<Arc<Term>, AllocError>
    ensures { IfOk result (λ u. u.value ≡ lift_term by from t.now.value) }
{
    let whole: &Term = t;
    if loose_above_of(whole) <= from {
        return Arc::try_clone(t);
    }
    match &whole.node {
        TermNode::Bound { place } => {
            let Some(place) = place.checked_add(by) else {
                return Err(AllocError);
            };
            Ok(Arc::new(
                alloc,
                Term {
                    node: TermNode::Bound { place },
                },
            )?)
        }
        TermNode::Abs { typ, body, .. } => {
            let typ = typ.copy(alloc)?;
            let body = raise(alloc, body, by, from + 1)?;
            Ok(Arc::new(alloc, Term::abs(typ, body))?)
        }
        TermNode::App { fun, arg, .. } => {
            let fun = raise(alloc, fun, by, from)?;
            let arg = raise(alloc, arg, by, from)?;
            Ok(Arc::new(alloc, Term::app(fun, arg))?)
        }
        _ => Arc::try_clone(t),
    }
}
