//! The type of a term, or the place of its first node at fault.
ghost use Rattle.std.specs.Prelude.{◌≡◌, ◌↔◌, IsTrue, List, [], ◌∷◌, MatchOption, IfOk};
ghost use Rattle.pure_definitions.specs.Types.Typ as tree;
ghost use Rattle.pure_definitions.specs.Types.Typ.{arrow};
ghost use Rattle.pure_definitions.specs.Terms.Term as term_tree;
ghost use Rattle.pure_definitions.specs.Terms.Typing.{Takes};
ghost use Rattle.pure_term.specs.Scope.{scope_typs};
ghost use Rattle.pure_term.specs.TypeAnswer.{found_typ, deeper_fault, IsTypeAnswer, IsFoundAnswer};

use crate::measure::node_count_of;
use crate::scope::{Scope, typ_at};
use crate::term::{Term, TermNode};
use pure_typ::{Typ, TypNode};
use std::alloc::{AllocError, Global};

/// Why a term's type isn't given: it has none, and its first node at fault has this place, cut off at `u32::MAX`; or memory ran out.
#[derive(Clone, Copy, Debug, PartialEq, Eq)]
pub enum TypeFault {
    NotTyped { place: u32 },
    Memory,
}

impl From<AllocError> for TypeFault {
    ghost use Rattle.std.specs.Prelude.{◌≡◌};
    ghost use Rattle.pure_term.specs.declared.typing.TypeFault.TheVariants.{Memory};

    ghost from_gives = { λ _ fault. fault ≡ Memory };

    fn from(_: AllocError) -> TypeFault {
        TypeFault::Memory
    }
}

/// The type of a term: one that stands in it, or one that was made for an abstraction.
#[derive(Drop)]
enum Found<'t> {
    Lent(&'t Typ),
    Made(Box<Typ>),
}

/// Whether functions of the first type take arguments of the second.
fn takes(function: &Typ, argument: &Typ) -> bool
    ensures { IsTrue result ↔ Takes function.now argument.now }
{
    match &function.node {
        TypNode::Con { name, args } => {
            if name.0 != 0 {
                return false;
            }
            let args = args.as_slice();
            if args.len() != 2 {
                return false;
            }
            let domain = &args[0];
            domain == argument
        }
        _ => false,
    }
}

/// What a function of the first type gives for arguments of the second, where the type is lent.
fn lent_range<'t>(function: &'t Typ, argument: &Typ) -> Option<&'t Typ>
    ensures { MatchOption result (¬ Takes function.now argument.now) (λ range. function.now ≡ arrow argument.now range.now) }
{
    if !takes(function, argument) {
        return None;
    }
    match &function.node {
        TypNode::Con { args, .. } => {
            let args = args.as_slice();
            if args.len() != 2 {
                return None;
            }
            let range = &args[1];
            Some(range)
        }
        _ => None,
    }
}

/// What a function of the first type gives for arguments of the second, where the type was made.
fn made_range(alloc: Global, function: &Typ, argument: &Typ) -> Result<Option<Box<Typ>>, AllocError>
    ensures { IfOk result (λ found. MatchOption found (¬ Takes function.now argument.now) (λ range. function.now ≡ arrow argument.now range.value)) }
{
    match lent_range(function, argument) {
        Some(range) => Ok(Some(Box::new(alloc, range.copy(alloc)?)?)),
        None => Ok(None),
    }
}

/// The type, by reference.
fn lent<'f>(found: &'f Found<'_>) -> &'f Typ
    ensures { result.now ≡ found_typ found.now }
{
    match found {
        Found::Lent(typ) => *typ,
        Found::Made(typ) => typ,
    }
}

/// The type itself, copied where it was lent.
fn owned(alloc: Global, found: Found) -> Result<Typ, AllocError>
    ensures { IfOk result (λ t. t ≡ found_typ found.entry) }
{
    match found {
        Found::Lent(typ) => typ.copy(alloc),
        Found::Made(typ) => Ok(Box::into_inner(typ)),
    }
}

/// The type of the results of a function of the first type for arguments of the second.
#[inline(never)]
fn range_of<'t>(
    alloc: Global,
    function: Found<'t>,
    argument: &Typ,
) -> Result<Option<Found<'t>>, AllocError>
    ensures { IfOk result (λ found. MatchOption found (¬ Takes (found_typ function.entry) argument.now) (λ range. found_typ function.entry ≡ arrow argument.now (found_typ range))) }
{
    match function {
        Found::Lent(typ) => match lent_range(typ, argument) {
            Some(range) => Ok(Some(Found::Lent(range))),
            None => Ok(None),
        },
        Found::Made(typ) => match made_range(alloc, &typ, argument)? {
            Some(range) => Ok(Some(Found::Made(range))),
            None => Ok(None),
        },
    }
}

/// The fault, with its place so much further on.
#[inline(never)]
fn deeper(fault: TypeFault, by: u32) -> TypeFault
    ensures { result ≡ deeper_fault by fault }
{
    match fault {
        TypeFault::NotTyped { place } => TypeFault::NotTyped {
            place: place.saturating_add(by),
        },
        TypeFault::Memory => TypeFault::Memory,
    }
}

/// The type of an abstraction over a variable of the first type, of a body of the second.
#[inline(never)]
fn abstraction_typ(alloc: Global, domain: &Typ, range: Found) -> Result<Box<Typ>, AllocError>
    ensures { IfOk result (λ t. t.value ≡ arrow domain.now (found_typ range.entry)) }
{
    let range = owned(alloc, range)?;
    let domain = domain.copy(alloc)?;
    let typ = Typ::arrow(alloc, domain, range)?;
    Ok(Box::new(alloc, typ)?)
}

/// The answer for a bound variable.
#[inline(never)]
fn answer_at_bound<'t>(scope: &Scope<'_, 't>, place: u32) -> Result<Found<'t>, TypeFault>
    ensures { IsFoundAnswer (scope_typs scope.now) (term_tree.Bound place) result }
{
    match typ_at(scope, place) {
        Some(typ) => Ok(Found::Lent(typ)),
        None => Err(TypeFault::NotTyped { place: 0 }),
    }
}

/// The answer for an abstraction over a variable of this type, from that for its body.
#[inline(never)]
fn answer_at_abs<'t>(
    alloc: Global,
    domain: &Typ,
    body: Result<Found<'t>, TypeFault>,
) -> Result<Found<'t>, TypeFault>
    ensures { (bs : List tree.Typ) (t : term_tree.Term) → IsFoundAnswer (domain.now ∷ bs) t body.entry → IsFoundAnswer bs (term_tree.Abs domain.now t) result }
{
    match body {
        Ok(range) => Ok(Found::Made(abstraction_typ(alloc, domain, range)?)),
        Err(fault) => Err(deeper(fault, 1)),
    }
}

/// The answer for an application of this function, from those for the function and for its argument.
#[inline(never)]
fn answer_at_app<'t>(
    alloc: Global,
    fun: &Term,
    function: Result<Found<'t>, TypeFault>,
    argument: Result<Found<'t>, TypeFault>,
) -> Result<Found<'t>, TypeFault>
    ensures { (bs : List tree.Typ) (arg : term_tree.Term) → IsFoundAnswer bs fun.now function.entry → IsFoundAnswer bs arg argument.entry → IsFoundAnswer bs (term_tree.App fun.now arg) result }
{
    let function = match function {
        Ok(function) => function,
        Err(fault) => return Err(deeper(fault, 1)),
    };
    let argument = match argument {
        Ok(argument) => argument,
        Err(fault) => return Err(deeper(fault, node_count_of(fun).saturating_add(1))),
    };
    match range_of(alloc, function, lent(&argument))? {
        Some(range) => Ok(range),
        None => Err(TypeFault::NotTyped { place: 0 }),
    }
}

/// The type of the term in the scope, or its first node at fault. What isn't recursion stands in functions of its own, so that a deep term takes little stack; so an argument is walked though its function has a fault.
fn typ_under<'s, 't>(
    alloc: Global,
    t: &'t Term,
    scope: &'s Scope<'s, 't>,
) -> Result<Found<'t>, TypeFault>
    ensures { IsFoundAnswer (scope_typs scope.now) t.now result }
{
    match &t.node {
        TermNode::Const { typ, .. } => Ok(Found::Lent(typ)),
        TermNode::Free { typ, .. } => Ok(Found::Lent(typ)),
        TermNode::Var { typ, .. } => Ok(Found::Lent(typ)),
        TermNode::Bound { place } => answer_at_bound(scope, *place),
        TermNode::Abs { typ, body, .. } => {
            let range = typ_under(alloc, body, &Scope::Under(typ, scope));
            answer_at_abs(alloc, typ, range)
        }
        TermNode::App { fun, arg, .. } => {
            let function = typ_under(alloc, fun, scope);
            let argument = typ_under(alloc, arg, scope);
            answer_at_app(alloc, fun, function, argument)
        }
    }
}

/// The type of the term under no binders.
pub fn typ_of(alloc: Global, t: &Term) -> Result<Typ, TypeFault>
    ensures { IsTypeAnswer [] t.now result }
{
    let found = typ_under(alloc, t, &Scope::Empty)?;
    Ok(owned(alloc, found)?)
}
