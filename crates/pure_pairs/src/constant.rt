//! Terms with a variable become a constant function.
ghost use Rattle.std.specs.Prelude.{◌≡◌, IfOk, MatchOption, length, drop, true, false};
ghost use Rattle.pure_definitions.specs.Types.Typ.{prop};
ghost use Rattle.pure_definitions.specs.Terms.Term.{term_eq};
ghost use Rattle.pure_definitions.specs.Terms.Conditions.{variable_typ};
ghost use Rattle.pure_unify_definitions.specs.Fronts as fronts;
ghost use Rattle.pure_pairs.specs.Smash as smashing;

use pure_term::{Term, TermNode, Typ, copied, index_above_of};
use pure_theorem::{Pair, prop_typ};
use pure_unify_sides::head;
use std::alloc::{AllocError, Global};
use std::sync::Arc;

/// The type that is written with a variable; of any other term that of propositions, which is handed in.
pub fn written_typ<'t>(v: &'t Term, propositions: &'t Typ) -> &'t Typ
    requires { propositions.now ≡ prop }
    ensures { result.now ≡ variable_typ v.now }
{
    match &v.node {
        TermNode::Free { typ, .. } => typ,
        TermNode::Var { typ, .. } => typ,
        _ => propositions,
    }
}

/// The type of functions from one argument fewer, where the type is one of functions.
fn after_argument(typ: &Typ) -> &Typ
    ensures { fronts.domains result.now ≡ drop 1 (fronts.domains typ.now) }
{
    match typ.as_arrow() {
        Some((_, range)) => range,
        None => typ,
    }
}

/// What is left of the type, behind the arguments, where the variable of this type is applied.
fn left_over<'t>(v: &Term, typ: &'t Typ, t: &Term) -> Option<&'t Typ>
    ensures { MatchOption result (term_eq v.now (fronts.front t.now) ≡ false) (λ T. (term_eq v.now (fronts.front t.now) ≡ true) × (fronts.domains T.now ≡ drop (length (fronts.arguments t.now)) (fronts.domains typ.now))) }
{
    match &t.node {
        TermNode::App { fun, .. } => match left_over(v, typ, fun) {
            Some(rest) => Some(after_argument(rest)),
            None => None,
        },
        _ => { if *v == *t { Some(typ) } else { None } }
    }
}

/// The constant function that takes what functions of the type take, and gives the term.
fn constant_function(alloc: Global, typ: &Typ, c: &Term) -> Result<Arc<Term>, AllocError>
    ensures { IfOk result (λ u. u.value ≡ fronts.below (fronts.domains typ.now) c.now) }
{
    match typ.as_arrow() {
        Some((domain, range)) => {
            let body = constant_function(alloc, range, c)?;
            let typ = domain.copy(alloc)?;
            Ok(Arc::new(alloc, Term::abs(typ, body))?)
        }
        None => copied(alloc, c),
    }
}

/// The term with the variable of the type become the constant function that gives `c`. A part whose indexes are all below one of the variable's is handed back as it is.
fn with_constant(
    alloc: Global,
    v: &Term,
    typ: &Typ,
    c: &Term,
    t: &Arc<Term>,
) -> Result<Arc<Term>, AllocError>
    ensures { IfOk result (λ u. u.value ≡ smashing.with_constant v.now (fronts.domains typ.now) c.now t.now.value) }
{
    let whole: &Term = t;
    if index_above_of(whole) < index_above_of(v) {
        return Arc::try_clone(t);
    }
    match &whole.node {
        TermNode::Var { .. } => {
            if *v == *whole {
                constant_function(alloc, typ, c)
            } else {
                Arc::try_clone(t)
            }
        }
        TermNode::Abs {
            typ: binder,
            body,
            ..
        } => {
            let binder = binder.copy(alloc)?;
            let body = with_constant(alloc, v, typ, c, body)?;
            Ok(Arc::new(alloc, Term::abs(binder, body))?)
        }
        TermNode::App { fun, arg, .. } => match left_over(v, typ, fun) {
            Some(rest) => constant_function(alloc, after_argument(rest), c),
            None => {
                let fun = with_constant(alloc, v, typ, c, fun)?;
                let arg = with_constant(alloc, v, typ, c, arg)?;
                Ok(Arc::new(alloc, Term::app(fun, arg))?)
            }
        },
        _ => Arc::try_clone(t),
    }
}

/// The term with the variable become the constant function that gives `c`.
fn with_head(alloc: Global, v: &Term, c: &Term, t: &Arc<Term>) -> Result<Arc<Term>, AllocError>
    ensures { IfOk result (λ u. u.value ≡ smashing.with_constant v.now (fronts.domains (variable_typ v.now)) c.now t.now.value) }
{
    let propositions = prop_typ(alloc);
    let typ = written_typ(v, &propositions);
    with_constant(alloc, v, typ, c, t)
}

/// The term with the heads of both sides of the pair become constant functions that give `c`.
pub fn with_constants(alloc: Global, pair: &Pair, c: &Term, t: &Term) -> Result<Term, AllocError>
    ensures { IfOk result (λ u. u ≡ smashing.with_constants pair.now c.now t.now) }
{
    let whole = copied(alloc, t)?;
    let first = with_head(alloc, head(&pair.left), c, &whole)?;
    let second = with_head(alloc, head(&pair.right), c, &first)?;
    second.copy(alloc)
}
