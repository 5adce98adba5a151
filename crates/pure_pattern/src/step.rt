//! A step: the first pair is treated. Entries of new variables aren't held: their images are bounded by those that are.
ghost use Rattle.std.specs.Prelude.{◌≡◌, ◌+◌, ◌<◌, ◌^◌, ◌++◌, ◌∷◌, [], OnOk};
ghost use Rattle.pure_text.specs.Lists.{Each};
ghost use Rattle.pure_pattern_laws.specs.Steps.{IsWithinState, State, max_steps};
ghost use Rattle.pure_pattern_rules.specs.Treated.{AreBindsWithin, AreSidesWithin};
ghost use Rattle.pure_pattern.specs.Held.{behind, seen, IsLowImage, IsLowPair, IsMadeState};
ghost use Rattle.pure_pattern.specs.Followed.{kept, IsFollowed, IsGivenMade, IsGivenSet, IsStepped};

use crate::fault::PatternFault;
use crate::put::{least_index, push_bind, push_pair, put_binds, put_pairs};
use crate::state::{Held, push_pairs};
use pure_pattern_rules::{Treatment, treated};
use pure_term::{Grow, TermBind};
use pure_theorem::Pair;
use std::alloc::{AllocError, Global};

/// The state in which these pairs stand before the others.
fn replaced(held: Held, pairs: Vec<Pair>) -> Result<Held, PatternFault>
    requires pairs { Each AreSidesWithin pairs.items }
    requires within { IsWithinState (seen held) }
    ensures { IsMadeState (record { pairs = pairs.items ++ (seen held).pairs; binds = (seen held).binds }) result }
{
    let mut held = held;
    push_pairs(&mut held.pairs, pairs)?;
    Ok(held)
}

/// Lets go of a pair.
pub(crate) fn discard(_pair: Pair) {}

/// Lets go of a state.
fn discard_state(_held: Held) {}

/// Puts the entry behind the others, if its index is at most `maxidx`.
fn push_given(maxidx: u32, binds: &mut Vec<TermBind>, bind: TermBind) -> Result<(), AllocError>
    ensures { OnOk result (binds.new.items ≡ binds.old.items ++ kept maxidx (bind ∷ [])) }
{
    let index = bind.index;
    if maxidx < index {
        return Ok(());
    }
    push_bind(binds, bind)?;
    Ok(())
}

/// Puts the entries of indexes up to `maxidx` behind the others.
fn push_all_given(
    maxidx: u32,
    binds: &mut Vec<TermBind>,
    new: Vec<TermBind>,
) -> Result<(), AllocError>
    ensures { OnOk result (binds.new.items ≡ binds.old.items ++ kept maxidx new.items) }
{
    for bind in new {
        push_given(maxidx, binds, bind)?;
    }
    Ok(())
}

/// The pairs and the entries that are held, with the images put in, and those of the new ones that are to be held.
fn put_given(alloc: Global, maxidx: u32, held: Held, new: Vec<TermBind>) -> Result<Held, Grow>
    requires pairs { Each IsLowPair held.pairs.items }
    requires images { Each IsLowImage held.binds.items }
    requires new { AreBindsWithin new.items }
    ensures { IsGivenMade maxidx new.items held result }
{
    let from = least_index(&new);
    let Held { pairs, binds } = held;
    let pairs = match put_pairs(alloc, pairs, &new, from) {
        Ok(pairs) => pairs,
        Err(fault) => return Err(fault),
    };
    let mut binds = match put_binds(alloc, binds, &new, from) {
        Ok(binds) => binds,
        Err(fault) => return Err(fault),
    };
    push_all_given(maxidx, &mut binds, new)?;
    Ok(Held { pairs, binds })
}

/// The same, where the first pair is held apart.
fn set_given(
    alloc: Global,
    maxidx: u32,
    first: Pair,
    held: Held,
    new: Vec<TermBind>,
) -> Result<Held, PatternFault>
    requires pairs { Each IsLowPair (behind first held).pairs }
    requires images { Each IsLowImage held.binds.items }
    requires new { AreBindsWithin new.items }
    ensures { IsGivenSet maxidx new.items first held result }
{
    let mut held = held;
    push_pair(&mut held.pairs, first)?;
    match put_given(alloc, maxidx, held, new) {
        Ok(held) => Ok(held),
        Err(Grow::Big) => Err(PatternFault::Big),
        Err(Grow::Memory) => Err(PatternFault::Memory),
    }
}

/// The step that treats the first pair. Its new variables have the index `maxidx` and the number of the step.
pub(crate) fn step(
    alloc: Global,
    maxidx: u32,
    done: u32,
    first: Pair,
    held: Held,
) -> Result<Held, PatternFault>
    requires known { (o : State) × IsFollowed maxidx done o (first ∷ (seen held).pairs) held.binds.items }
    requires less { done < max_steps }
    requires room { maxidx + 10001 < 2 ^ 32 }
    ensures { (o : State) → IsFollowed maxidx done o (first ∷ (seen held).pairs) held.binds.items → IsStepped maxidx (done + 1) o result }
{
    match treated(alloc, maxidx + (done + 1), &first) {
        Ok(Treatment::Becomes(pairs)) => {
            discard(first);
            replaced(held, pairs)
        }
        Ok(Treatment::Sets(binds)) => set_given(alloc, maxidx, first, held, binds),
        Ok(Treatment::Never) => {
            discard(first);
            discard_state(held);
            Err(PatternFault::NoUnifier)
        }
        Err(Grow::Big) => {
            discard(first);
            discard_state(held);
            Err(PatternFault::Big)
        }
        Err(Grow::Memory) => {
            discard(first);
            discard_state(held);
            Err(PatternFault::Memory)
        }
    }
}
