//! Images put into patterns in long form by renaming, and whether the result is within the limits.
ghost use Rattle.std.specs.Prelude.{◌≡◌, ◌<◌, true, Some, IfOk, MatchOption, option_map};
ghost use Rattle.pure_definitions.specs.Terms.Term as tree;
ghost use Rattle.pure_definitions.specs.Terms.Term.{term_eq, term_size, term_depth};
ghost use Rattle.pure_definitions.specs.Terms.Limits.{Leaves};
ghost use Rattle.pure_definitions.specs.Terms.Subst.{term_image, term_variable};
ghost use Rattle.pure_term.specs.Grown.{IsGrown};
ghost use Rattle.pure_unify_definitions.specs.Fronts as fronts;
ghost use Rattle.pure_pattern_laws.specs.Putting as putting;
ghost use Rattle.pure_pattern_terms.specs.Images.{IsLowTerm, AreShallow, AreFrom, became, application_places, IsImageBody, StaysApplied};

use crate::renaming::renamed;
use crate::written::add_places;
use pure_term::{Term, TermBind, TermNode, copied, index_above_of, term_leaves};
use pure_typ::{Grow, MAX_DEPTH, MAX_SIZE, Name, Typ, typ_leaves};
use pure_unify_sides::{front, is_schematic, term_body};
use std::alloc::{AllocError, Global};
use std::sync::Arc;

/// Whether the entry replaces this variable.
fn replaces(b: &TermBind, name: Name, index: u32, typ: &Typ) -> bool
    ensures { result ≡ term_eq (term_variable b.now) (tree.Var name index typ.now) }
{
    b.name == name && b.index == index && b.typ == *typ
}

/// The image of a variable, where an entry replaces it.
fn found<'m>(name: Name, index: u32, typ: &Typ, binds: &'m [TermBind]) -> Option<&'m Term>
    ensures { MatchOption result (term_image binds.now (tree.Var name index typ.now) ≡ tree.Var name index typ.now) (λ t. term_image binds.now (tree.Var name index typ.now) ≡ t.now) }
{
    let Some((bind, rest)) = binds.split_first() else {
        return None;
    };
    if replaces(bind, name, index, typ) {
        return Some(&bind.image);
    }
    found(name, index, typ, rest)
}

/// What stands below the abstractions of the term, where it has some.
fn inner(image: &Term) -> Option<&Term>
    ensures { MatchOption result (StaysApplied image.now) (λ b. IsImageBody image.now b.now) }
{
    match &image.node {
        TermNode::Abs { body, .. } => Some(term_body(body)),
        _ => None,
    }
}

/// What stands below the abstractions of a variable's image, where it has some.
fn image_body<'m>(v: &Term, binds: &'m [TermBind]) -> Option<&'m Term>
    requires { fronts.is_schematic v.now ≡ true }
    ensures { MatchOption result (StaysApplied (term_image binds.now v.now)) (λ b. IsImageBody (term_image binds.now v.now) b.now) }
{
    match &v.node {
        TermNode::Var { name, index, typ } => match found(*name, *index, typ, binds) {
            Some(image) => inner(image),
            None => None,
        },
        _ => None,
    }
}

/// What is left of room for nodes when the image is put into an application of its variable.
fn application_leaves(t: &Term, binds: &[TermBind], left: u32, room: u32) -> Option<u32>
    requires { fronts.is_schematic (fronts.front t.now) ≡ true }
    ensures { Leaves left room (term_size (putting.put_application (term_image binds.now (fronts.front t.now)) t.now)) (term_depth (putting.put_application (term_image binds.now (fronts.front t.now)) t.now)) result }
{
    match image_body(front(t), binds) {
        Some(body) => term_leaves(body, left, room),
        None => term_leaves(t, left, room),
    }
}

/// What is left of room for nodes when the term is put in with the images put into it. The variables that are replaced have indexes of `from` and more.
fn put_leaves(t: &Term, binds: &[TermBind], from: u32, left: u32, room: u32) -> Option<u32>
    requires { AreFrom from binds.now }
    ensures { Leaves left room (term_size (putting.put_in (term_image binds.now) t.now)) (term_depth (putting.put_in (term_image binds.now) t.now)) result }
{
    if index_above_of(t) <= u64::from(from) {
        return term_leaves(t, left, room);
    }
    match &t.node {
        TermNode::Var { name, index, typ } => match found(*name, *index, typ, binds) {
            Some(image) => term_leaves(image, left, room),
            None => term_leaves(t, left, room),
        },
        TermNode::Abs { typ, body, .. } => {
            if left == 0 || room == 0 {
                return None;
            }
            let Some(rest) = typ_leaves(typ, left - 1, room - 1) else {
                return None;
            };
            put_leaves(body, binds, from, rest, room - 1)
        }
        TermNode::App { fun, arg, .. } => {
            if is_schematic(front(fun)) {
                return application_leaves(t, binds, left, room);
            }
            if left == 0 || room == 0 {
                return None;
            }
            let Some(rest) = put_leaves(fun, binds, from, left - 1, room - 1) else {
                return None;
            };
            put_leaves(arg, binds, from, rest, room - 1)
        }
        _ => term_leaves(t, left, room),
    }
}

/// The body of an image, with the variable's arguments in place of the bound variables.
fn put_body(alloc: Global, body: &Term, t: &Term) -> Result<Arc<Term>, AllocError>
    requires low { IsLowTerm t.now }
    requires shallow { term_depth body.now < 2147483648 }
    ensures { IfOk result (λ u. u.value ≡ putting.renamed 0 (application_places t.now) body.now) }
{
    let mut places = Vec::new(alloc);
    add_places(t, &mut places)?;
    let body = copied(alloc, body)?;
    renamed(alloc, &body, 0, &places)
}

/// An application of a variable, with the variable's image put in; none where it stays.
#[inline(never)]
fn put_application(
    alloc: Global,
    t: &Term,
    binds: &[TermBind],
) -> Result<Option<Arc<Term>>, AllocError>
    requires schematic { fronts.is_schematic (fronts.front t.now) ≡ true }
    requires low { IsLowTerm t.now }
    requires shallow { AreShallow binds.now }
    ensures { IfOk result (λ made. became t.now (option_map (λ u. u.value) made) ≡ putting.put_application (term_image binds.now (fronts.front t.now)) t.now) }
{
    match image_body(front(t), binds) {
        Some(body) => Ok(Some(put_body(alloc, body, t)?)),
        None => Ok(None),
    }
}

/// The abstraction over a variable of the type of what the body was made into, if it was.
#[inline(never)]
fn abstraction(
    alloc: Global,
    typ: &Typ,
    body: Option<Arc<Term>>,
) -> Result<Option<Arc<Term>>, AllocError>
    ensures { IfOk result (λ made. option_map (λ u. u.value) made ≡ option_map (λ b. tree.Abs typ.now b.value) body) }
{
    let Some(body) = body else {
        return Ok(None);
    };
    let typ = typ.copy(alloc)?;
    Ok(Some(Arc::new(alloc, Term::abs(typ, body))?))
}

/// What the part was made into; or the part, where it wasn't.
fn made_or(part: &Arc<Term>, made: Option<Arc<Term>>) -> Result<Arc<Term>, AllocError>
    ensures { IfOk result (λ u. u.value ≡ became part.now.value (option_map (λ m. m.value) made)) }
{
    match made {
        Some(new) => Ok(new),
        None => Ok(Arc::try_clone(part)?),
    }
}

/// The application of the function to the argument, as what was made.
fn new_application(
    alloc: Global,
    fun: Arc<Term>,
    arg: Arc<Term>,
) -> Result<Option<Arc<Term>>, AllocError>
    ensures { IfOk result (λ made. option_map (λ u. u.value) made ≡ Some (tree.App fun.value arg.value)) }
{
    Ok(Some(Arc::new(alloc, Term::app(fun, arg))?))
}

/// The application of what its parts were made into, if one of them was.
#[inline(never)]
fn applied(
    alloc: Global,
    fun: &Arc<Term>,
    arg: &Arc<Term>,
    first: Option<Arc<Term>>,
    second: Option<Arc<Term>>,
) -> Result<Option<Arc<Term>>, AllocError>
    ensures { IfOk result (λ made. became (tree.App fun.now.value arg.now.value) (option_map (λ u. u.value) made) ≡ tree.App (became fun.now.value (option_map (λ u. u.value) first)) (became arg.now.value (option_map (λ u. u.value) second))) }
{
    match first {
        Some(new) => {
            let arg = made_or(arg, second)?;
            new_application(alloc, new, arg)
        }
        None => match second {
            Some(new) => {
                let fun = Arc::try_clone(fun)?;
                new_application(alloc, fun, new)
            }
            None => Ok(None),
        },
    }
}

/// The term with the images put into it; none where it stays. A part whose indexes are below those of the variables that are replaced isn't looked through.
fn put(
    alloc: Global,
    t: &Term,
    binds: &[TermBind],
    from: u32,
) -> Result<Option<Arc<Term>>, AllocError>
    requires low { IsLowTerm t.now }
    requires shallow { AreShallow binds.now }
    requires from { AreFrom from binds.now }
    ensures { IfOk result (λ made. became t.now (option_map (λ u. u.value) made) ≡ putting.put_in (term_image binds.now) t.now) }
{
    if index_above_of(t) <= u64::from(from) {
        return Ok(None);
    }
    match &t.node {
        TermNode::Var { name, index, typ } => match found(*name, *index, typ, binds) {
            Some(image) => Ok(Some(copied(alloc, image)?)),
            None => Ok(None),
        },
        TermNode::Abs { typ, body, .. } => {
            let inside = put(alloc, body, binds, from)?;
            abstraction(alloc, typ, inside)
        }
        TermNode::App { fun, arg, .. } => {
            if is_schematic(front(fun)) {
                return put_application(alloc, t, binds);
            }
            let first = put(alloc, fun, binds, from)?;
            let second = put(alloc, arg, binds, from)?;
            applied(alloc, fun, arg, first, second)
        }
        _ => Ok(None),
    }
}

/// The pattern in long form, with the image of each schematic variable put in by renaming. The variables that are replaced have indexes of `from` and more. Parts in which none occurs are shared.
///
/// # Errors
///
/// `Big` exactly where that is beyond the limits, so that it isn't made, and `Memory`.
pub fn put_in(alloc: Global, t: Term, binds: &[TermBind], from: u32) -> Result<Term, Grow>
    requires low { IsLowTerm t }
    requires shallow { AreShallow binds.now }
    requires from { AreFrom from binds.now }
    ensures { IsGrown (putting.put_in (term_image binds.now) t) result }
{
    let Some(_) = put_leaves(&t, binds, from, MAX_SIZE, MAX_DEPTH) else {
        return Err(Grow::Big);
    };
    match put(alloc, &t, binds, from)? {
        Some(made) => Ok(made.copy(alloc)?),
        None => Ok(t),
    }
}
