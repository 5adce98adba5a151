//! Fixed variables made schematic, and indexes raised.
ghost use Rattle.std.specs.Prelude.{◌≡◌, IfOk, map};
ghost use Rattle.pure_logic.specs.Derivable.{IsDerivable};
ghost use Rattle.pure_theorem.specs.Facts.{IsTheoryContent};
ghost use Rattle.pure_inst.specs.Image.{pair_image, IsImage, IsMapAnswer, RefusesNothing};
ghost use Rattle.pure_inst.specs.Renaming.{renamed, AreRaisable};
ghost use Rattle.pure_inst.specs.Schematic.{generalisation, GivesGeneralised, RefusesGeneralised, GivesRaised};

use crate::answer::within_limits;
use crate::fault::InstFault;
use crate::named::first_with_some;
use crate::renaming::{Renaming, renamed, renamed_pairs, renamed_terms};
use pure_term::Name;
use pure_theorem::{Base, Thm, copied_terms, set_of_terms};
use std::alloc::{AllocError, Global};

/// The theorem with the fixed type variables and fixed variables of these names made schematic, with the index. `FreeInHyps` where one of them occurs in a hypothesis, else `Big` where a term of the answer isn't within the limits.
///
///      H |- A[x]
///     ------------ x nowhere in H
///      H |- A[?x]
pub fn generalise<B: Base>(
    alloc: Global,
    thy: &B,
    tfrees: &[Name],
    frees: &[Name],
    index: u32,
    th: &Thm,
) -> Result<Thm, InstFault>
    ensures answer { let g = generalisation tfrees.now frees.now index in IsMapAnswer (GivesGeneralised g th.now) (RefusesGeneralised g th.now) result }
    ensures derivable { let Q = B.content thy.now in IsTheoryContent Q → IsDerivable Q th.now → IfOk result (IsDerivable Q) }
{
    if let Some(which) = first_with_some(&th.hyps, tfrees, frees) {
        return Err(InstFault::FreeInHyps { which });
    }
    let renaming = Renaming::schematic(alloc, tfrees, frees, index)?;
    within_limits(renamed_conclusion(alloc, &renaming, th)?)
}

/// The theorem with its pairs and its proposition renamed, where no index is raised.
fn renamed_conclusion(alloc: Global, renaming: &Renaming, th: &Thm) -> Result<Thm, AllocError>
    requires { renaming.now.by ≡ 0 }
    ensures { IfOk result (λ new. new ≡ record th.now { pairs = map (pair_image (renamed renaming.now)) th.now.pairs; prop = renamed renaming.now th.now.prop }) }
{
    let hyps = copied_terms(alloc, &th.hyps)?;
    let pairs = renamed_pairs(alloc, renaming, &th.pairs)?;
    let prop = renamed(alloc, renaming, &th.prop)?;
    let rests = Vec::from_slice(alloc, &th.rests)?;
    Ok(Thm {
        hyps,
        pairs,
        prop,
        rests,
    })
}

/// The theorem with the number added to each schematic index. `Big` where a term of the answer isn't within the limits.
pub fn incr_indexes<B: Base>(alloc: Global, thy: &B, by: u32, th: &Thm) -> Result<Thm, InstFault>
    requires { AreRaisable by th.now }
    ensures answer { IsMapAnswer (GivesRaised by th.now) RefusesNothing result }
    ensures derivable { let Q = B.content thy.now in IsTheoryContent Q → IsDerivable Q th.now → IfOk result (IsDerivable Q) }
{
    let renaming = Renaming::raising(alloc, by);
    within_limits(renamed_theorem(alloc, &renaming, th)?)
}

/// The theorem, renamed.
fn renamed_theorem(alloc: Global, renaming: &Renaming, th: &Thm) -> Result<Thm, AllocError>
    requires { AreRaisable renaming.now.by th.now }
    ensures { IfOk result (IsImage (renamed renaming.now) th.now) }
{
    let hyps = set_of_terms(renamed_terms(alloc, renaming, &th.hyps)?)?;
    let pairs = renamed_pairs(alloc, renaming, &th.pairs)?;
    let prop = renamed(alloc, renaming, &th.prop)?;
    let rests = Vec::from_slice(alloc, &th.rests)?;
    Ok(Thm {
        hyps,
        pairs,
        prop,
        rests,
    })
}
