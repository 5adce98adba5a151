//! Types of terms.
ghost use Rattle.std.specs.Prelude.{◌≡◌, ◌↔◌, IsTrue, IfOk, MatchOption, []};
ghost use Rattle.pure_definitions.specs.Types.Typ.{arrow};
ghost use Rattle.pure_definitions.specs.Terms.Conditions.{IsVariable, variable_typ};
ghost use Rattle.pure_definitions.specs.Terms.Typing.{HasType, Takes};
ghost use Rattle.pure_theorem.specs.Shapes.{IsTyped};

use crate::same::are_same_typs;
use pure_term::{Term, TermNode, Typ, TypeFault, typ_of};
use std::alloc::{AllocError, Global};

/// Whether the term has this type, under no binders.
pub fn has_typ(alloc: Global, t: &Term, typ: &Typ) -> Result<bool, AllocError>
    ensures { IfOk result (λ has. IsTrue has ↔ HasType [] t.now typ.now) }
{
    match typ_of(alloc, t) {
        Ok(own) => Ok(are_same_typs(&own, typ)),
        Err(TypeFault::NotTyped { .. }) => Ok(false),
        Err(TypeFault::Memory) => Err(AllocError),
    }
}

/// The type of a term that has one.
pub fn typ_of_typed(alloc: Global, t: &Term) -> Result<Typ, AllocError>
    requires { IsTyped t.now }
    ensures { IfOk result (λ T. HasType [] t.now T) }
{
    match typ_of(alloc, t) {
        Ok(typ) => Ok(typ),
        Err(TypeFault::NotTyped { .. }) => unreachable!(),
        Err(TypeFault::Memory) => Err(AllocError),
    }
}

/// What functions of the first type give for arguments of the second.
pub fn range_for<'t>(function: &'t Typ, argument: &Typ) -> Option<&'t Typ>
    ensures { MatchOption result (¬ Takes function.now argument.now) (λ range. function.now ≡ arrow argument.now range.now) }
{
    let Some((domain, range)) = function.as_arrow() else {
        return None;
    };
    if !are_same_typs(domain, argument) {
        return None;
    }
    Some(range)
}

/// The type that is written with a variable.
pub fn typ_of_variable(v: &Term) -> &Typ
    requires { IsVariable v.now }
    ensures { result.now ≡ variable_typ v.now }
{
    match &v.node {
        TermNode::Free { typ, .. } => typ,
        TermNode::Var { typ, .. } => typ,
        _ => unreachable!(),
    }
}
