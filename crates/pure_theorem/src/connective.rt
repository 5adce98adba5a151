//! The connectives of Pure in terms: taken apart, and made.
ghost use Rattle.std.specs.Prelude.{◌≡◌, ◌↔◌, IsTrue, IfOk, MatchOption};
ghost use Rattle.pure_definitions.specs.Types.Typ.{prop, arrow};
ghost use Rattle.pure_definitions.specs.Terms.Term as tree;
ghost use Rattle.pure_definitions.specs.Names.{imp_name, eq_name, all_name};
ghost use Rattle.pure_logic.specs.Connectives.{imp_typ, eq_typ, all_typ, imp, eq, all_of};
ghost use Rattle.pure_theorem.specs.Shapes.{IsNoApplication, IsNoConstTyped, IsNoEqTyp, IsNoAllTyp, IsNoImplication, IsNoEquation, IsNoQuantification};

use crate::same::are_same_typs;
use pure_term::{Args, Name, Term, TermNode, Typ, TypNode};
use std::alloc::{AllocError, Global};
use std::sync::Arc;

/// The type of propositions. It takes no memory.
pub fn prop_typ(_alloc: Global) -> Typ
    ensures { result ≡ prop }
{
    let (name, args) = (Name::PROP, Args::Nullary);
    Typ {
        node: TypNode::Con { name, args },
    }
}

/// Whether the type is that of propositions.
pub fn is_prop(typ: &Typ) -> bool
    ensures { IsTrue result ↔ (typ.now ≡ prop) }
{
    let TypNode::Con { name, args } = &typ.node else {
        return false;
    };
    let args = args.as_slice();
    if *name != Name::PROP {
        return false;
    }
    if args.len() != 0 {
        return false;
    }
    true
}

/// Whether the type is that of implication.
fn is_imp_typ(typ: &Typ) -> bool
    ensures { IsTrue result ↔ (typ.now ≡ imp_typ) }
{
    let Some((premise, rest)) = typ.as_arrow() else {
        return false;
    };
    let Some((conclusion, range)) = rest.as_arrow() else {
        return false;
    };
    is_prop(premise) && is_prop(conclusion) && is_prop(range)
}

/// The type of the two sides, where the type is that of equality.
fn sides_typ(typ: &Typ) -> Option<&Typ>
    ensures { MatchOption result (IsNoEqTyp typ.now) (λ T. typ.now ≡ eq_typ T.now) }
{
    let Some((left, rest)) = typ.as_arrow() else {
        return None;
    };
    let Some((right, range)) = rest.as_arrow() else {
        return None;
    };
    if !are_same_typs(left, right) {
        return None;
    }
    if !is_prop(range) {
        return None;
    }
    Some(left)
}

/// The type of the variable, where the type is that of quantification.
fn variable_typ(typ: &Typ) -> Option<&Typ>
    ensures { MatchOption result (IsNoAllTyp typ.now) (λ T. typ.now ≡ all_typ T.now) }
{
    let Some((function, range)) = typ.as_arrow() else {
        return None;
    };
    let Some((domain, body)) = function.as_arrow() else {
        return None;
    };
    if !is_prop(range) {
        return None;
    }
    if !is_prop(body) {
        return None;
    }
    Some(domain)
}

/// The type of a constant of this name.
fn const_typ(t: &Term, name: Name) -> Option<&Typ>
    ensures { MatchOption result (IsNoConstTyped name t.now) (λ T. t.now ≡ tree.Const name T.now) }
{
    match &t.node {
        TermNode::Const { name: own, typ } => { if *own == name { Some(typ) } else { None } }
        _ => None,
    }
}

/// The function and the argument of an application.
pub fn as_application(t: &Term) -> Option<(&Term, &Term)>
    ensures { MatchOption result (IsNoApplication t.now) (λ parts. t.now ≡ tree.App parts.0.now parts.1.now) }
{
    match &t.node {
        TermNode::App { fun, arg, .. } => Some((&**fun, &**arg)),
        _ => None,
    }
}

/// The premise and the conclusion of an implication; none exactly where the term isn't one.
pub fn as_implication(t: &Term) -> Option<(&Term, &Term)>
    ensures { MatchOption result (IsNoImplication t.now) (λ parts. t.now ≡ imp parts.0.now parts.1.now) }
{
    let Some((function, conclusion)) = as_application(t) else {
        return None;
    };
    let Some((connective, premise)) = as_application(function) else {
        return None;
    };
    let Some(typ) = const_typ(connective, Name::IMP) else {
        return None;
    };
    if !is_imp_typ(typ) {
        return None;
    }
    Some((premise, conclusion))
}

/// The type and the two sides of an equation; none exactly where the term isn't one.
pub fn as_equation(t: &Term) -> Option<(&Typ, &Term, &Term)>
    ensures { MatchOption result (IsNoEquation t.now) (λ parts. t.now ≡ eq parts.0.now parts.1.now parts.2.now) }
{
    let Some((function, right)) = as_application(t) else {
        return None;
    };
    let Some((connective, left)) = as_application(function) else {
        return None;
    };
    let Some(typ) = const_typ(connective, Name::EQ) else {
        return None;
    };
    let Some(sides) = sides_typ(typ) else {
        return None;
    };
    Some((sides, left, right))
}

/// The type and the function of a quantification over any function; none exactly where the term isn't one.
pub fn as_all(t: &Term) -> Option<(&Typ, &Term)>
    ensures { MatchOption result (IsNoQuantification t.now) (λ parts. t.now ≡ all_of parts.0.now parts.1.now) }
{
    let Some((connective, function)) = as_application(t) else {
        return None;
    };
    let Some(typ) = const_typ(connective, Name::ALL) else {
        return None;
    };
    let Some(domain) = variable_typ(typ) else {
        return None;
    };
    Some((domain, function))
}

/// The constant of this name and this type.
fn constant(name: Name, typ: Typ) -> Term
    ensures { result ≡ tree.Const name typ }
{
    Term {
        node: TermNode::Const { name, typ },
    }
}

/// Two terms that are shared.
#[derive(Drop)]
struct Parts {
    first: Arc<Term>,
    second: Arc<Term>,
}

/// The two terms, to be shared. Apart, since each `?` at which a term is alive pays for all its variants, and one at which a pointer is for none.
fn shared_parts(alloc: Global, first: Term, second: Term) -> Result<Parts, AllocError>
    ensures first { IfOk result (λ parts. parts.first.value ≡ first) }
    ensures second { IfOk result (λ parts. parts.second.value ≡ second) }
{
    let first = Arc::new(alloc, first)?;
    let second = Arc::new(alloc, second)?;
    Ok(Parts { first, second })
}

/// The application of a function to an argument.
pub fn application(alloc: Global, function: Term, argument: Term) -> Result<Term, AllocError>
    ensures { IfOk result (λ t. t ≡ tree.App function argument) }
{
    let Parts { first, second } = shared_parts(alloc, function, argument)?;
    Ok(Term::app(first, second))
}

/// The application of a function to two arguments.
fn applied_to_both(
    alloc: Global,
    function: Arc<Term>,
    first: Arc<Term>,
    second: Arc<Term>,
) -> Result<Term, AllocError>
    ensures { IfOk result (λ t. t ≡ tree.App (tree.App function.value first.value) second.value) }
{
    let function = Arc::new(alloc, Term::app(function, first))?;
    Ok(Term::app(function, second))
}

/// The constant of implication.
fn imp_constant(alloc: Global) -> Result<Term, AllocError>
    ensures { IfOk result (λ t. t ≡ tree.Const imp_name imp_typ) }
{
    let range = Typ::arrow(alloc, prop_typ(alloc), prop_typ(alloc))?;
    let typ = Typ::arrow(alloc, prop_typ(alloc), range)?;
    Ok(constant(Name::IMP, typ))
}

/// The constant of implication, to be shared.
pub fn implication_constant(alloc: Global) -> Result<Arc<Term>, AllocError>
    ensures { IfOk result (λ t. t.value ≡ tree.Const imp_name imp_typ) }
{
    let connective = imp_constant(alloc)?;
    Ok(Arc::new(alloc, connective)?)
}

/// `A ==> B`, by this constant of implication.
pub fn implication_by(
    alloc: Global,
    connective: &Arc<Term>,
    premise: Term,
    conclusion: Term,
) -> Result<Term, AllocError>
    requires { connective.now.value ≡ tree.Const imp_name imp_typ }
    ensures { IfOk result (λ t. t ≡ imp premise conclusion) }
{
    let Parts { first, second } = shared_parts(alloc, premise, conclusion)?;
    let connective = Arc::try_clone(connective)?;
    applied_to_both(alloc, connective, first, second)
}

/// `A ==> B`, of shared parts.
pub(crate) fn implication_of(
    alloc: Global,
    premise: Arc<Term>,
    conclusion: Arc<Term>,
) -> Result<Term, AllocError>
    ensures { IfOk result (λ t. t ≡ imp premise.value conclusion.value) }
{
    let connective = implication_constant(alloc)?;
    applied_to_both(alloc, connective, premise, conclusion)
}

/// `A ==> B`
pub fn implication(alloc: Global, premise: Term, conclusion: Term) -> Result<Term, AllocError>
    ensures { IfOk result (λ t. t ≡ imp premise conclusion) }
{
    let Parts { first, second } = shared_parts(alloc, premise, conclusion)?;
    implication_of(alloc, first, second)
}

/// The type of functions from the first to the second.
fn arrow_from(alloc: Global, domain: &Typ, range: Typ) -> Result<Typ, AllocError>
    ensures { IfOk result (λ t. t ≡ arrow domain.now range) }
{
    Typ::arrow(alloc, domain.copy(alloc)?, range)
}

/// The constant of equality, at the type of both sides.
fn eq_constant(alloc: Global, typ: &Typ) -> Result<Term, AllocError>
    ensures { IfOk result (λ t. t ≡ tree.Const eq_name (eq_typ typ.now)) }
{
    let range = arrow_from(alloc, typ, prop_typ(alloc))?;
    let typ = arrow_from(alloc, typ, range)?;
    Ok(constant(Name::EQ, typ))
}

/// `t == u`, at the type of both sides, of shared parts.
pub(crate) fn equation_of(
    alloc: Global,
    typ: &Typ,
    left: Arc<Term>,
    right: Arc<Term>,
) -> Result<Term, AllocError>
    ensures { IfOk result (λ t. t ≡ eq typ.now left.value right.value) }
{
    let connective = Arc::new(alloc, eq_constant(alloc, typ)?)?;
    applied_to_both(alloc, connective, left, right)
}

/// `t == u`, at the type of both sides
pub fn equation(alloc: Global, typ: &Typ, left: Term, right: Term) -> Result<Term, AllocError>
    ensures { IfOk result (λ t. t ≡ eq typ.now left right) }
{
    let Parts { first, second } = shared_parts(alloc, left, right)?;
    equation_of(alloc, typ, first, second)
}

/// The constant of quantification over variables of the type.
fn all_constant(alloc: Global, typ: &Typ) -> Result<Term, AllocError>
    ensures { IfOk result (λ t. t ≡ tree.Const all_name (all_typ typ.now)) }
{
    let domain = arrow_from(alloc, typ, prop_typ(alloc))?;
    let typ = Typ::arrow(alloc, domain, prop_typ(alloc))?;
    Ok(constant(Name::ALL, typ))
}

/// `!!x. f x`, for a function from the type to propositions
pub fn all_of(alloc: Global, typ: &Typ, function: Term) -> Result<Term, AllocError>
    ensures { IfOk result (λ t. t ≡ all_of typ.now function) }
{
    let function = Arc::new(alloc, function)?;
    let connective = Arc::new(alloc, all_constant(alloc, typ)?)?;
    Ok(Term::app(connective, function))
}
