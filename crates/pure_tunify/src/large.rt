//! Whether pairs have a unifier where types are too large to be written out: what was set and what is left, as one pair of types.
ghost use Rattle.std.specs.Prelude.{◌≡◌, ◌++◌, map, reverse, IfOk, MatchBool};
ghost use Rattle.pure_definitions.specs.Terms.Subst.{typ_variable};
ghost use Rattle.pure_tunify.specs.Unifiers.{HasUnifier, HasNoUnifier};
ghost use Rattle.pure_tunify.specs.Steps.{instance_pair};
ghost use Rattle.pure_tunify.specs.Settings.{composed};

use crate::pair::TypPair;
use crate::reached::variable_of;
use crate::settings::Settings;
use crate::sorted::are_of_their_sorts;
use crate::unifiable::is_unifiable;
use pure_order::Order;
use pure_typ::{Name, Typ};
use std::alloc::{AllocError, Global};

/// The variables that are set, and the left sides of the pairs.
fn left_types(alloc: Global, settings: &Settings, work: &[TypPair]) -> Result<Vec<Typ>, AllocError>
    ensures { IfOk result (λ typs. typs.items ≡ map typ_variable settings.now.sets ++ map (λ p. p.left) work.now) }
{
    let mut typs = Vec::new(alloc);
    for bind in settings.binds() {
        let variable = variable_of(bind, alloc)?;
        typs.push(variable)?;
    }
    for pair in work {
        let left = pair.left.copy(alloc)?;
        typs.push(left)?;
    }
    Ok(typs)
}

/// Their images as they were set, and the right sides.
fn right_types(alloc: Global, settings: &Settings, work: &[TypPair]) -> Result<Vec<Typ>, AllocError>
    ensures { IfOk result (λ typs. typs.items ≡ map (λ b. b.image) settings.now.sets ++ map (λ p. p.right) work.now) }
{
    let mut typs = Vec::new(alloc);
    for bind in settings.binds() {
        let image = bind.image.copy(alloc)?;
        typs.push(image)?;
    }
    for pair in work {
        let right = pair.right.copy(alloc)?;
        typs.push(right)?;
    }
    Ok(typs)
}

/// Whether the pairs that are left have a unifier under the settings.
pub fn is_solvable(
    order: &Order,
    alloc: Global,
    settings: &Settings,
    work: &[TypPair],
) -> Result<bool, AllocError>
    ensures { IfOk result (λ can. MatchBool can
        (HasUnifier order.now (map (instance_pair (composed settings.now.sets)) (reverse work.now)))
        (HasNoUnifier order.now (map (instance_pair (composed settings.now.sets)) (reverse work.now)))) }
{
    let _ = settings.binds();
    let sorted = are_of_their_sorts(order, alloc, settings)?;
    if !sorted {
        return Err(AllocError);
    }
    let lefts = left_types(alloc, settings, work)?;
    let left = Typ::constructed(alloc, Name::FUN, lefts)?;
    let rights = right_types(alloc, settings, work)?;
    let right = Typ::constructed(alloc, Name::FUN, rights)?;
    is_unifiable(order, alloc, &left, &right)
}
