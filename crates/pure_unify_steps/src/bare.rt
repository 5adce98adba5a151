//! The rule for a side that is a bare variable.
ghost use Rattle.std.specs.Prelude.{◌≡◌, ◌+◌, ◌<◌, IfOk, true};
ghost use Rattle.pure_definitions.specs.Terms.Term.{term_depth};
ghost use Rattle.pure_definitions.specs.Terms.Subst.{term_variable};
ghost use Rattle.pure_unify_definitions.specs.Fronts as fronts;
ghost use Rattle.pure_unify_nodes.specs.Long.{IsLongSide};
ghost use Rattle.pure_unify_steps.specs.Direct as direct;
ghost use Rattle.pure_unify_steps.specs.Treated.{IsBareAnswer, IsAgainst, IsVariableAnswer};

use crate::direct::is_plain;
use crate::treat::Treatment;
use pure_eta::eta_norm;
use pure_term::{Term, TermBind, TermNode, occurs};
use pure_unify_sides::{is_flexible, is_schematic, occurs_firmly};
use std::alloc::{AllocError, Global};

/// Whether the function at the term's front is applied to so many arguments.
fn has_arguments(t: &Term, count: u32) -> bool
    ensures { result ≡ direct.has_arguments count t.now }
{
    match &t.node {
        TermNode::App { fun, .. } => {
            if count == 0 {
                return false;
            }
            has_arguments(fun, count - 1)
        }
        _ => count == 0,
    }
}

/// Whether what stands below the term's abstractions has as many arguments as they and so many others are, as the long form of a variable has.
fn has_as_many(t: &Term, binders: u32) -> bool
    requires { binders + term_depth t.now < 4294967296 }
    ensures { result ≡ direct.has_as_many binders t.now }
{
    match &t.node {
        TermNode::Abs { body, .. } => has_as_many(body, binders + 1),
        _ => has_arguments(t, binders),
    }
}

/// The variable that the side is, where it is a bare variable.
fn bare_variable(alloc: Global, t: &Term) -> Result<Option<Term>, AllocError>
    requires { IsLongSide t.now }
    ensures { IfOk result (IsBareAnswer t.now) }
{
    if is_plain(t) {
        return Ok(None);
    }
    if !is_flexible(t) {
        return Ok(None);
    }
    if !has_as_many(t, 0) {
        return Ok(None);
    }
    let form = eta_norm(alloc, t)?;
    if !is_schematic(&form) {
        return Ok(None);
    }
    Ok(Some(form))
}

/// The entry that sets the schematic variable to the image.
pub fn entry_for(v: Term, image: Term) -> TermBind
    requires { fronts.is_schematic v ≡ true }
    ensures variable { term_variable result ≡ v }
    ensures image { result.image ≡ image }
{
    let Term { node } = v;
    match node {
        TermNode::Var { name, index, typ } => TermBind {
            name,
            index,
            typ,
            image,
        },
        _ => unreachable!(),
    }
}

/// What the rule does with the other side of a bare variable, where it applies.
fn treat_bare(alloc: Global, v: Term, other: &Term) -> Result<Option<Treatment>, AllocError>
    requires variable { fronts.is_schematic v ≡ true }
    requires long { IsLongSide other.now }
    ensures { IfOk result (IsAgainst v other.now) }
{
    if !occurs(&v, other) {
        let image = eta_norm(alloc, other)?;
        return Ok(Some(Treatment::Put(entry_for(v, image))));
    }
    if occurs_firmly(&v, other) {
        return Ok(Some(Treatment::Fail));
    }
    Ok(None)
}

/// What the rule does with sides of one type, where it applies: the left is looked at first.
pub fn treat_variables(alloc: Global, l: &Term, r: &Term) -> Result<Option<Treatment>, AllocError>
    requires left { IsLongSide l.now }
    requires right { IsLongSide r.now }
    ensures { IfOk result (IsVariableAnswer l.now r.now) }
{
    match bare_variable(alloc, l)? {
        Some(v) => treat_bare(alloc, v, r),
        None => match bare_variable(alloc, r)? {
            Some(v) => treat_bare(alloc, v, l),
            None => Ok(None),
        },
    }
}
