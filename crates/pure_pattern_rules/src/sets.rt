//! Variables that are set to the long forms of images.
ghost use Rattle.std.specs.Prelude.{◌≡◌, [], ◌∷◌, IfOk};
ghost use Rattle.pure_definitions.specs.Types.Typ as types;
ghost use Rattle.pure_definitions.specs.Terms.Typing.{HasType};
ghost use Rattle.pure_definitions.specs.Reduction.Beta.{IsBetaNormal};
ghost use Rattle.pure_pattern_laws.specs.Treatment as rules;
ghost use Rattle.pure_pattern_rules.specs.Treated.{seen, IsAnswered, AreImagesWithin};
ghost use Rattle.pure_pattern_rules.specs.Flexible.{entry_for, IsSetTo, AreSetTo};

use crate::flexible::Flexible;
use crate::treatment::Treatment;
use pure_eta::long_form;
use pure_term::{Term, TermBind};
use pure_typ::Grow;
use std::alloc::{AllocError, Global};

/// The entry that sets the variable to the image.
fn entry(alloc: Global, variable: &Flexible, image: Term) -> Result<TermBind, AllocError>
    ensures { IfOk result (λ b. b ≡ entry_for variable.now image) }
{
    let typ = variable.typ.copy(alloc)?;
    Ok(TermBind {
        name: variable.name,
        index: variable.index,
        typ,
        image,
    })
}

/// The treatment that sets the variable to the image.
fn set_one(alloc: Global, variable: &Flexible, image: Term) -> Result<Treatment, AllocError>
    ensures { IfOk result (λ how. seen how ≡ rules.Sets (entry_for variable.now image ∷ [])) }
{
    let bind = entry(alloc, variable, image)?;
    let mut binds = Vec::new(alloc);
    binds.push(bind)?;
    Ok(Treatment::Sets(binds))
}

/// The treatment that sets the variables to these images.
fn set_two(
    alloc: Global,
    variable: &Flexible,
    image: Term,
    second: &Flexible,
    other: Term,
) -> Result<Treatment, AllocError>
    ensures { IfOk result (λ how. seen how ≡ rules.Sets (entry_for variable.now image ∷ entry_for second.now other ∷ [])) }
{
    let bind = entry(alloc, variable, image)?;
    let mut binds = Vec::new(alloc);
    binds.push(bind)?;
    let bind = entry(alloc, second, other)?;
    binds.push(bind)?;
    Ok(Treatment::Sets(binds))
}

/// The variable is set to the long form of the image.
pub fn set_to(alloc: Global, variable: &Flexible, image: &Term) -> Result<Treatment, Grow>
    requires typed { (T : types.Typ) × HasType [] image.now T }
    requires normal { IsBetaNormal image.now }
    ensures treated { IsAnswered (IsSetTo variable.now image.now) result }
    ensures within { IfOk result AreImagesWithin }
{
    match long_form(alloc, image) {
        Ok(long) => {
            let how = set_one(alloc, variable, long)?;
            Ok(how)
        }
        Err(fault) => Err(fault),
    }
}

/// The variables are set to the long forms of these images.
pub fn set_both(
    alloc: Global,
    variable: &Flexible,
    image: &Term,
    second: &Flexible,
    other: &Term,
) -> Result<Treatment, Grow>
    requires typed { (T : types.Typ) × HasType [] image.now T }
    requires normal { IsBetaNormal image.now }
    requires other_typed { (T : types.Typ) × HasType [] other.now T }
    requires other_normal { IsBetaNormal other.now }
    ensures treated { IsAnswered (AreSetTo variable.now image.now second.now other.now) result }
    ensures within { IfOk result AreImagesWithin }
{
    let long = match long_form(alloc, image) {
        Ok(long) => long,
        Err(fault) => return Err(fault),
    };
    match long_form(alloc, other) {
        Ok(more) => {
            let how = set_two(alloc, variable, long, second, more)?;
            Ok(how)
        }
        Err(fault) => Err(fault),
    }
}
