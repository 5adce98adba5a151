//! The variables that occur in a type with all set variables replaced, where it isn't written out.
ghost use Rattle.std.specs.Prelude.{◌≡◌, map, IfOk, OnOk, MatchBool};
ghost use Rattle.std.specs.Bool.{OnTrue};
ghost use Rattle.pure_text.specs.Lists.{IsIn, Each, AnyOf};
ghost use Rattle.pure_definitions.specs.Types.Occurs.{OccursInTyp};
ghost use Rattle.pure_definitions.specs.Terms.Subst.{typ_variable, typ_instance};
ghost use Rattle.pure_term_laws.specs.LawsOccurs.{IsTypVariable};
ghost use Rattle.pure_tunify.specs.Settings.{composed};
ghost use Rattle.pure_tunify.specs.Reached.{IsReached, IsReachedBy};

use crate::occurs::variable_occurs;
use crate::settings::Settings;
use pure_typ::{Typ, TypBind, TypNode};
use std::alloc::{AllocError, Global};

/// Whether the variable occurs in one of the types.
fn occurs_in_any(variable: &Typ, typs: &[Typ]) -> bool
    ensures { MatchBool result (AnyOf (OccursInTyp variable.now) typs.now) (Each (λ t. ¬ OccursInTyp variable.now t) typs.now) }
{
    for typ in typs {
        if variable_occurs(variable, typ) {
            return true;
        }
    }
    false
}

/// The variable of the entry.
pub fn variable_of(bind: &TypBind, alloc: Global) -> Result<Typ, AllocError>
    ensures { IfOk result (λ v. v ≡ typ_variable bind.now) }
{
    let sort = bind.sort.copy(alloc)?;
    Ok(Typ {
        node: TypNode::TVar {
            name: bind.name,
            index: bind.index,
            sort,
        },
    })
}

/// Adds the entry's image to the types, where its variable occurs in one of them.
fn reach(alloc: Global, typs: &mut Vec<Typ>, bind: &TypBind) -> Result<(), AllocError>
    ensures { OnOk result (IsReachedBy bind.now typs.old.items typs.new.items) }
{
    let variable = variable_of(bind, alloc)?;
    let occurs = occurs_in_any(&variable, typs.as_slice());
    if !occurs {
        return Ok(());
    }
    let image = bind.image.copy(alloc)?;
    typs.push(image)?;
    Ok(())
}

/// Types in one of which just those variables occur, of all that aren't set, that are in this type with all set variables
/// replaced: the type, and the images that it reaches.
fn reached(settings: &Settings, alloc: Global, t: &Typ) -> Result<Vec<Typ>, AllocError>
    ensures { IfOk result (λ typs. IsReached settings.now.sets t.now typs.items) }
{
    let mut typs = Vec::new(alloc);
    let copy = t.copy(alloc)?;
    typs.push(copy)?;
    for bind in settings.binds() {
        reach(alloc, &mut typs, bind)?;
    }
    Ok(typs)
}

/// Whether the variable occurs in no image, as it was set.
fn is_in_no_image(settings: &Settings, variable: &Typ) -> bool
    ensures { OnTrue result (Each (λ b. ¬ OccursInTyp variable.now b.image) settings.now.sets) }
{
    for bind in settings.binds() {
        if variable_occurs(variable, &bind.image) {
            return false;
        }
    }
    true
}

/// Whether a variable that isn't set occurs in the type with all set variables replaced.
pub fn occurs_resolved(
    settings: &Settings,
    alloc: Global,
    variable: &Typ,
    t: &Typ,
) -> Result<bool, AllocError>
    requires variable { IsTypVariable variable.now }
    requires absent { ¬ IsIn variable.now (map typ_variable settings.now.sets) }
    ensures { IfOk result (λ occurs. MatchBool occurs (OccursInTyp variable.now (typ_instance (composed settings.now.sets) t.now)) (¬ OccursInTyp variable.now (typ_instance (composed settings.now.sets) t.now))) }
{
    if is_in_no_image(settings, variable) {
        let here = variable_occurs(variable, t);
        return Ok(here);
    }
    let typs = reached(settings, alloc, t)?;
    let occurs = occurs_in_any(variable, typs.as_slice());
    Ok(occurs)
}
