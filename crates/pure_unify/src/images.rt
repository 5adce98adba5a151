//! The images of a variable against a head, one at a time: the imitation has the number 0, and the projection to the argument at a place the number of this place and 1.
ghost use Rattle.std.specs.Prelude.{◌≡◌, ◌∷◌, [], ◌<◌, ◌≤◌, ◌^◌, ◌+◌, ◌-◌, length, drop, IfOk, IfSome, MatchOption};
ghost use Rattle.pure_definitions.specs.Types.Typ.{typ_depth};
ghost use Rattle.pure_definitions.specs.Terms.Term as tree;
ghost use Rattle.pure_unify_definitions.specs.Fronts as fronts;
ghost use Rattle.pure_unify_definitions.specs.Children as children;
ghost use Rattle.pure_unify.specs.Images.{images_from, HasNoFit, IsFirstFit, IsFirstOf, HasCountable};

use pure_term::{Term, TermNode, Typ, copied};
use pure_unify_sides::{domain_count, image_with, range_of};
use std::alloc::{AllocError, Global};
use std::sync::Arc;

/// An image, and the number from which on those behind it are found.
#[derive(Drop)]
pub struct Taken {
    pub image: Term,
    pub next: u32,
}

/// The imitation of the head, where there is one.
fn imitation(alloc: Global, typ: &Typ, head: &Term, index: u32) -> Result<Option<Term>, AllocError>
    requires few { typ_depth typ.now < 2 ^ 32 }
    requires countable { HasCountable head.now }
    ensures { IfOk result (λ o. MatchOption o (children.imitations index (fronts.domains typ.now) head.now ≡ []) (λ t. children.imitations index (fronts.domains typ.now) head.now ≡ t ∷ [])) }
{
    match &head.node {
        TermNode::Const { typ: own, .. } => {
            let function = copied(alloc, head)?;
            Ok(Some(image_with(alloc, typ, function, own, index)?))
        }
        TermNode::Free { typ: own, .. } => {
            let function = copied(alloc, head)?;
            Ok(Some(image_with(alloc, typ, function, own, index)?))
        }
        TermNode::Var { .. } => Ok(None),
        TermNode::Bound { .. } => Ok(None),
        TermNode::Abs { .. } => Ok(None),
        TermNode::App { .. } => Ok(None),
    }
}

/// The projection to the argument at the place, which has the second type.
fn projection_to(
    alloc: Global,
    typ: &Typ,
    domain: &Typ,
    place: u32,
    index: u32,
) -> Result<Term, AllocError>
    requires few { typ_depth typ.now < 2 ^ 32 }
    requires names { typ_depth domain.now < 2 ^ 32 }
    requires place { place < length (fronts.domains typ.now) }
    ensures { IfOk result (λ t. t ≡ children.image_of index (fronts.domains typ.now) (tree.Bound (length (fronts.domains typ.now) - (place + 1))) (fronts.domains domain.now)) }
{
    let place = domain_count(typ) - (place + 1);
    let node = TermNode::Bound { place };
    let head = Arc::new(alloc, Term { node })?;
    let image = image_with(alloc, typ, head, domain, index)?;
    Ok(image)
}

/// What is left of the type behind so many arguments.
fn behind(typ: &Typ, count: u32) -> &Typ
    ensures domains { fronts.domains result.now ≡ drop count (fronts.domains typ.now) }
    ensures depth { typ_depth result.now ≤ typ_depth typ.now }
{
    if count == 0 {
        return typ;
    }
    match typ.as_arrow() {
        Some((_, rest)) => behind(rest, count - 1),
        None => typ,
    }
}

/// The place and the type of the first argument that ends in this type, among those that functions of the type `rest` take, which stand from one place on.
fn first_fit<'t>(range: &Typ, rest: &'t Typ, from: u32) -> Option<(u32, &'t Typ)>
    requires places { from + length (fronts.domains rest.now) < 2 ^ 32 }
    ensures fits { MatchOption result (HasNoFit range.now (fronts.domains rest.now)) (λ fit. IsFirstFit range.now from (fronts.domains rest.now) fit.0 fit.1.now) }
    ensures small { IfSome result (λ fit. (from ≤ fit.0) × (fit.0 < from + length (fronts.domains rest.now)) × (typ_depth fit.1.now < typ_depth rest.now)) }
{
    match rest.as_arrow() {
        Some((domain, more)) => {
            if *range_of(domain) == *range {
                return Some((from, domain));
            }
            first_fit(range, more, from + 1)
        }
        None => None,
    }
}

/// The first projection to an argument from the place on.
fn projection_from(
    alloc: Global,
    typ: &Typ,
    from: u32,
    index: u32,
) -> Result<Option<Taken>, AllocError>
    requires few { typ_depth typ.now < 2 ^ 32 }
    ensures { IfOk result (λ o. (h : tree.Term) → IsFirstOf index typ.now h (images_from index typ.now h (from + 1)) o) }
{
    let rest = behind(typ, from);
    match first_fit(range_of(typ), rest, from) {
        Some((place, domain)) => {
            let image = projection_to(alloc, typ, domain, place, index)?;
            Ok(Some(Taken {
                image,
                next: place + 2,
            }))
        }
        None => Ok(None),
    }
}

/// The image that stands first among all.
fn first_image(
    alloc: Global,
    typ: &Typ,
    head: &Term,
    index: u32,
) -> Result<Option<Taken>, AllocError>
    requires few { typ_depth typ.now < 2 ^ 32 }
    requires countable { HasCountable head.now }
    ensures { IfOk result (IsFirstOf index typ.now head.now (children.images index typ.now head.now)) }
{
    let found = imitation(alloc, typ, head, index)?;
    match found {
        Some(image) => Ok(Some(Taken { image, next: 1 })),
        None => projection_from(alloc, typ, 0, index),
    }
}

/// The first image of a variable of the type against the head from one number on.
pub fn image_from(
    alloc: Global,
    typ: &Typ,
    head: &Term,
    index: u32,
    number: u32,
) -> Result<Option<Taken>, AllocError>
    requires few { typ_depth typ.now < 2 ^ 32 }
    requires countable { HasCountable head.now }
    ensures { IfOk result (IsFirstOf index typ.now head.now (images_from index typ.now head.now number)) }
{
    if number == 0 {
        return first_image(alloc, typ, head, index);
    }
    projection_from(alloc, typ, number - 1, index)
}
