//! Pairs of a flexible and a rigid side.
ghost use Rattle.std.specs.Prelude.{◌≡◌, ◌<◌, ◌^◌, IfOk};
ghost use Rattle.std.specs.Bool.{OnTrue};
ghost use Rattle.pure_definitions.specs.Types.Typ.{typ_depth};
ghost use Rattle.pure_definitions.specs.Terms.Term as tree;
ghost use Rattle.pure_definitions.specs.Terms.Term.{term_depth, IsWithin};
ghost use Rattle.pure_unify_definitions.specs.Fronts as fronts;
ghost use Rattle.pure_unify_definitions.specs.Children as children;
ghost use Rattle.pure_pattern_rules.specs.Treated.{IsAnswered, AreImagesWithin};
ghost use Rattle.pure_pattern_rules.specs.Parts.{IsRigidHead, IsImageTyped, IsWide, AreFlexibleRigid, IsMixedTreated};
ghost use Rattle.pure_pattern_rules.specs.Flexible.{IsSetTo, CanImitate, IsTreatedHead};

use crate::applied::bound_at;
use crate::flexible::{Flexible, flexible_of};
use crate::occurs::occurs_in;
use crate::sets::set_to;
use crate::treatment::Treatment;
use pure_pattern_terms::domain_at;
use pure_term::{Term, TermNode, Typ, copied};
use pure_typ::{Grow, MAX_SIZE};
use pure_unify_sides::{domain_count, head, image_with};
use std::alloc::{AllocError, Global};
use std::sync::Arc;

/// Whether the image by imitation of a head of the second type is so wide that it needn't be made.
fn is_wide(typ: &Typ, head_typ: &Typ) -> bool
    requires few { typ_depth typ.now < 2 ^ 32 }
    requires names { typ_depth head_typ.now < 2 ^ 32 }
    ensures { OnTrue result (IsWide typ.now head_typ.now) }
{
    let many = domain_count(head_typ);
    let each = domain_count(typ);
    many.saturating_mul(each) > MAX_SIZE / 4
}

/// The variable is set to the imitation of the head, which has this type.
fn imitated(
    alloc: Global,
    index: u32,
    variable: &Flexible,
    head: Arc<Term>,
    typ: &Typ,
) -> Result<Treatment, Grow>
    requires few { typ_depth variable.now.typ < 2 ^ 32 }
    requires names { typ_depth typ.now < 2 ^ 32 }
    requires rigid { IsRigidHead head.value }
    requires typed { IsImageTyped index variable.now.typ head.value typ.now }
    ensures treated { IsAnswered (IsSetTo variable.now (children.image_of index (fronts.domains variable.now.typ) head.value (fronts.domains typ.now))) result }
    ensures within { IfOk result AreImagesWithin }
{
    if is_wide(&variable.typ, typ) {
        return Err(Grow::Big);
    }
    let image = image_with(alloc, &variable.typ, head, typ, index)?;
    set_to(alloc, variable, &image)
}

/// A bound variable in a block of its own.
fn bound(alloc: Global, place: u32) -> Result<Arc<Term>, AllocError>
    ensures { IfOk result (λ t. t.value ≡ tree.Bound place) }
{
    let node = TermNode::Bound { place };
    Ok(Arc::new(alloc, Term { node })?)
}

/// What becomes of a head that is a bound variable: where the variable isn't applied to it, it escapes.
fn bound_treated(
    alloc: Global,
    index: u32,
    variable: &Flexible,
    place: u32,
) -> Result<Treatment, Grow>
    requires few { typ_depth variable.now.typ < 2 ^ 32 }
    requires imitable { CanImitate index variable.now (tree.Bound place) }
    ensures treated { IsAnswered (IsTreatedHead index variable.now (tree.Bound place)) result }
    ensures within { IfOk result AreImagesWithin }
{
    let Some(typ) = domain_at(place, &variable.places, &variable.typ) else {
        return Ok(Treatment::Never);
    };
    let count = domain_count(&variable.typ);
    let Some(own) = bound_at(place, &variable.places, count) else {
        return Ok(Treatment::Never);
    };
    let own = bound(alloc, own)?;
    imitated(alloc, index, variable, own, typ)
}

/// What becomes of the head of the rigid side.
fn head_treated(
    alloc: Global,
    index: u32,
    variable: &Flexible,
    head: &Term,
) -> Result<Treatment, Grow>
    requires few { typ_depth variable.now.typ < 2 ^ 32 }
    requires low { term_depth head.now < 2 ^ 32 }
    requires imitable { CanImitate index variable.now head.now }
    ensures treated { IsAnswered (IsTreatedHead index variable.now head.now) result }
    ensures within { IfOk result AreImagesWithin }
{
    match &head.node {
        TermNode::Const { typ, .. } => {
            let function = copied(alloc, head)?;
            imitated(alloc, index, variable, function, typ)
        }
        TermNode::Free { typ, .. } => {
            let function = copied(alloc, head)?;
            imitated(alloc, index, variable, function, typ)
        }
        TermNode::Bound { place } => bound_treated(alloc, index, variable, *place),
        _ => unreachable!(),
    }
}

/// The treatment of a pair of a flexible and a rigid side.
pub fn mixed(alloc: Global, index: u32, flexible: &Term, rigid: &Term) -> Result<Treatment, Grow>
    requires sides { AreFlexibleRigid flexible.now rigid.now }
    requires flexible { IsWithin flexible.now }
    requires rigid { IsWithin rigid.now }
    ensures treated { IsAnswered (IsMixedTreated index flexible.now rigid.now) result }
    ensures within { IfOk result AreImagesWithin }
{
    if occurs_in(head(flexible), rigid) {
        return Ok(Treatment::Never);
    }
    let variable = flexible_of(alloc, flexible)?;
    head_treated(alloc, index, &variable, head(rigid))
}
