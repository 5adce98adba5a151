//! What the head of a flexible side becomes: imitations and projections.
ghost use Rattle.std.specs.Prelude.{◌≡◌, ◌+◌, ◌<◌, ◌^◌, length, IfOk};
ghost use Rattle.pure_definitions.specs.Types.Typ.{typ_depth};
ghost use Rattle.pure_definitions.specs.Terms.Term as tree;
ghost use Rattle.pure_unify_definitions.specs.Fronts as fronts;
ghost use Rattle.pure_unify_definitions.specs.Children as children;

use pure_term::{Name, Term, TermNode, Typ};
use std::alloc::{AllocError, Global};
use std::sync::Arc;

/// The function applied to so many bound variables, of which the last is bound variable 0.
pub fn applied_to_bounds(
    alloc: Global,
    function: Arc<Term>,
    count: u32,
) -> Result<Arc<Term>, AllocError>
    ensures { IfOk result (λ t. t.value ≡ fronts.applied function.value (fronts.bounds count)) }
{
    if count == 0 {
        return Ok(function);
    }
    let place = count - 1;
    let bound = TermNode::Bound { place };
    let arg = Arc::new(alloc, Term { node: bound })?;
    let more = Arc::new(alloc, Term::app(function, arg))?;
    let done = applied_to_bounds(alloc, more, place)?;
    Ok(done)
}

/// The type of functions from the types that functions of the first take, in order, to the second.
pub fn function_to(alloc: Global, t: &Typ, range: &Typ) -> Result<Typ, AllocError>
    ensures { IfOk result (λ T. T ≡ fronts.function_typ (fronts.domains t.now) range.now) }
{
    match t.as_arrow() {
        Some((domain, rest)) => {
            let inside = function_to(alloc, rest, range)?;
            let domain = domain.copy(alloc)?;
            let typ = Typ::arrow(alloc, domain, inside)?;
            Ok(typ)
        }
        None => Ok(range.copy(alloc)?),
    }
}

/// The type in which functions of the type end.
pub fn range_of(t: &Typ) -> &Typ
    ensures { result.now ≡ fronts.range t.now }
{
    match t.as_arrow() {
        Some((_, rest)) => range_of(rest),
        None => t,
    }
}

/// How many arguments functions of the type take.
pub fn domain_count(t: &Typ) -> u32
    requires { length (fronts.domains t.now) < 2 ^ 32 }
    ensures { result ≡ length (fronts.domains t.now) }
{
    match t.as_arrow() {
        Some((_, rest)) => domain_count(rest) + 1,
        None => 0,
    }
}

/// A new variable of the given name and index: a function to the second type of the arguments that functions of the first take, applied to these.
fn new_argument(
    alloc: Global,
    typ: &Typ,
    range: &Typ,
    name: u32,
    index: u32,
) -> Result<Arc<Term>, AllocError>
    requires { length (fronts.domains typ.now) < 2 ^ 32 }
    ensures { IfOk result (λ t. t.value ≡ fronts.applied (tree.Var name index (fronts.function_typ (fronts.domains typ.now) range.now)) (fronts.bounds (length (fronts.domains typ.now)))) }
{
    let count = domain_count(typ);
    let typ = function_to(alloc, typ, range)?;
    let node = TermNode::Var {
        name: Name(name),
        index,
        typ,
    };
    let variable = Arc::new(alloc, Term { node })?;
    let done = applied_to_bounds(alloc, variable, count)?;
    Ok(done)
}

/// The function applied to new variables, one for each argument that functions of the type `rest` take.
fn applied_to_new(
    alloc: Global,
    typ: &Typ,
    function: Arc<Term>,
    rest: &Typ,
    name: u32,
    index: u32,
) -> Result<Arc<Term>, AllocError>
    requires few { length (fronts.domains typ.now) < 2 ^ 32 }
    requires names { name + length (fronts.domains rest.now) < 2 ^ 32 }
    ensures { IfOk result (λ t. t.value ≡ fronts.applied function.value (children.new_arguments index (fronts.domains typ.now) name (fronts.domains rest.now))) }
{
    match rest.as_arrow() {
        Some((domain, more)) => {
            let arg = new_argument(alloc, typ, domain, name, index)?;
            let next = Arc::new(alloc, Term::app(function, arg))?;
            let done = applied_to_new(alloc, typ, next, more, name + 1, index)?;
            Ok(done)
        }
        None => Ok(function),
    }
}

/// The term below abstractions of the types of the arguments that functions of the type take.
pub fn below_domains(alloc: Global, typ: &Typ, body: Arc<Term>) -> Result<Arc<Term>, AllocError>
    ensures { IfOk result (λ t. t.value ≡ fronts.below (fronts.domains typ.now) body.value) }
{
    match typ.as_arrow() {
        Some((domain, rest)) => {
            let inside = below_domains(alloc, rest, body)?;
            let typ = domain.copy(alloc)?;
            let done = Arc::new(alloc, Term::abs(typ, inside))?;
            Ok(done)
        }
        None => Ok(body),
    }
}

/// The image of a variable of the type with this head, whose type is given.
pub fn image_with(
    alloc: Global,
    typ: &Typ,
    head: Arc<Term>,
    head_typ: &Typ,
    index: u32,
) -> Result<Term, AllocError>
    requires few { typ_depth typ.now < 2 ^ 32 }
    requires names { typ_depth head_typ.now < 2 ^ 32 }
    ensures { IfOk result (λ t. t ≡ children.image_of index (fronts.domains typ.now) head.value (fronts.domains head_typ.now)) }
{
    let body = applied_to_new(alloc, typ, head, head_typ, 0, index)?;
    let image = below_domains(alloc, typ, body)?;
    Ok(image.copy(alloc)?)
}
