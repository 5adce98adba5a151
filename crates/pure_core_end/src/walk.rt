//! What theories left, handed out by a finished core.
ghost use Rattle.std.specs.Prelude.{◌≡◌, map, IfOk};
ghost use Rattle.pure_machine.specs.Step.{IsFinished};
ghost use Rattle.pure_machine.specs.Seen.{seen_standing};
ghost use Rattle.pure_core.specs.Legal.{IsLegal};
ghost use Rattle.pure_core_end.specs.Promises.{AreInOrder};
ghost use Rattle.pure_core_end.specs.Joined.{AreJoined};

use pure_core::{Core, Machine, Promise, Standing, Work};
use std::alloc::{AllocError, Global};
use std::sync::Arc;

/// What theories left: the values that closed them, in load order, and their promises, theory after theory and those of each in
/// order of number; all shared with the core.
#[derive(Drop)]
pub struct Joined<G, C, O> {
    pub values: Vec<Arc<C>>,
    pub promises: Vec<Promise<G, O>>,
}

/// How a promise stands, once more.
fn standing_again<O>(standing: &Standing<O>) -> Result<Standing<O>, AllocError>
    ensures { IfOk result (λ again. seen_standing again ≡ seen_standing standing.now) }
{
    match standing {
        Standing::Ready => Ok(Standing::Ready),
        Standing::Taken => Ok(Standing::Taken),
        Standing::Settled { outcome } => {
            let outcome = Arc::try_clone(outcome)?;
            Ok(Standing::Settled { outcome })
        }
        Standing::Cancelled => Ok(Standing::Cancelled),
    }
}

/// The promise once more, which shares its goal and its outcome.
fn again<G: Drop, O: Drop>(promise: &Promise<G, O>) -> Result<Promise<G, O>, AllocError>
    ensures { IfOk result (λ again. again ≡ promise.now) }
{
    let goal = Arc::try_clone(&promise.goal)?;
    let standing = standing_again(&promise.standing)?;
    Ok(Promise {
        theory: promise.theory,
        command: promise.command,
        goal,
        standing,
    })
}

/// All promises of the core, in order of number.
fn numbered<G: Drop, C: Drop, O: Drop>(
    alloc: Global,
    core: &Machine<G, C, O>,
) -> Result<Vec<Promise<G, O>>, AllocError>
    ensures { IfOk result (λ promises. promises.items ≡ core.now.promises) }
{
    let mut promises = Vec::with_capacity(alloc, core.count() as usize)?;
    for number in 0..core.count() {
        promises.push(again(core.promise(number))?)?;
    }
    Ok(promises)
}

/// All promises of the core, in load order.
fn ordered<G: Drop, C: Drop, O: Drop>(
    alloc: Global,
    core: &Machine<G, C, O>,
) -> Result<Vec<Promise<G, O>>, AllocError>
    ensures { IfOk result (λ promises. AreInOrder core.now.promises promises.items) }
{
    let mut promises = numbered(alloc, core)?;
    promises.sort_by_key(|promise| promise.theory)?;
    Ok(promises)
}

/// What the theories left of a core that is finished.
///
/// # Errors
///
/// Want of memory alone.
pub fn join_core<W: Work>(
    alloc: Global,
    work: &W,
    core: &Core<W>,
) -> Result<Joined<W::Goal, W::Closed, W::Outcome>, AllocError>
    requires legal { IsLegal (W.shape work.now) (W.forks work.now) (W.closes work.now) (W.may work.now) (W.faults work.now) core.now }
    requires finished { IsFinished core.now }
    ensures ordered { IfOk result (λ left. AreInOrder core.now.promises left.promises.items) }
    ensures joined { IfOk result (λ left. AreJoined (W.shape work.now) (W.forks work.now) (W.closes work.now) (W.may work.now) (map (λ p. p.value) left.values.items) left.promises.items) }
{
    let _ = work;
    let values = core.values()?;
    let promises = ordered(alloc, core)?;
    Ok(Joined { values, promises })
}
