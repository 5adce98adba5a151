//! A core drained by one worker: what is there to do is taken and run until all is finished.
ghost use Rattle.std.specs.Prelude.{◌≡◌, ◌<◌, ◌-◌, ◌^◌, ℕ, List, vec_len, OnOk, IfOk, Some, MatchBool};
ghost use Rattle.pure_machine.specs.State.{opened, parents_at};
ghost use Rattle.pure_machine.specs.Step.{IsShape, IsFinished};
ghost use Rattle.pure_text.specs.Lists.{EachTwo};
ghost use Rattle.pure_core.specs.Legal.{IsLegal, GoesOn, IsAtRest, IsTheoryAlone, IsProofAlone};

use crate::work::{Turn, Work};
use pure_machine::{Machine, Node, Policy, Task};
use pure_watch::Unwatched;
use std::alloc::{AllocError, Global};
use std::sync::Arc;

/// The state machine on which a work's theories and proofs run.
pub type Core<W> = Machine<<W as Work>::Goal, <W as Work>::Closed, <W as Work>::Outcome>;

/// The core at the opening of a session, with the shape that the work says: all theories wait, there is no promise, and the
/// groups whose number is 0 are cancelled (Wenzel, Parallel Proof Checking in Isabelle/Isar, 2009).
///
/// # Errors
///
/// Want of memory alone.
pub fn open<W: Work>(
    alloc: Global,
    work: &W,
    shape: Vec<Node>,
    policy: Policy,
    workers: u32,
) -> Result<Core<W>, AllocError>
    requires session { shape.items ≡ W.shape work.now }
    requires formed { IsShape shape.items }
    requires few { vec_len shape < 2 ^ 32 - 1 }
    ensures opened { IfOk result (λ core. core ≡ opened (record { shape = shape.items; policy = policy; workers = workers })) }
    ensures legal { IfOk result (IsLegal (W.shape work.now) (W.forks work.now) (W.closes work.now) (W.may work.now) (W.faults work.now)) }
    ensures rests { IfOk result IsAtRest }
{
    let _ = work;
    let core = Machine::open(alloc, shape, policy, workers)?;
    Ok(core)
}

/// One turn of a theory's run, the only one; whether it closed the theory.
fn take_turn<W: Work>(
    core: &mut Core<W>,
    work: &W,
    run: &mut W::Run,
    theory: u32,
) -> Result<bool, AllocError>
    requires runs { (k : ℕ) × IsTheoryAlone core.old theory k × W.runs work.now theory k run.old }
    ensures goes_on { GoesOn (W.forks work.now) (W.closes work.now) (W.may work.now) (W.faults work.now) core.old core.new }
    ensures rests { IfOk result (λ closed. MatchBool closed (IsAtRest core.new) ((k : ℕ) × IsTheoryAlone core.new theory k × W.runs work.now theory k run.new)) }
{
    match work.command(run)? {
        Turn::Declared => Ok(false),
        Turn::Forked { command, goal } => {
            core.fork(theory, command, goal)?;
            Ok(false)
        }
        Turn::Closed { closed } => {
            core.close_theory(theory, closed)?;
            Ok(true)
        }
    }
}

/// Runs a theory that was taken, the only one, until it is closed.
fn run_theory<W: Work>(
    core: &mut Core<W>,
    work: &W,
    theory: u32,
    parents: &[Arc<W::Closed>],
) -> Result<(), AllocError>
    requires alone { IsTheoryAlone core.old theory 0 }
    requires parents { (numbers : List ℕ) × (parents_at (W.shape work.now) theory ≡ Some numbers) × EachTwo (λ i c. (n : ℕ) × W.closes work.now i n c.value) numbers parents.now }
    ensures goes_on { GoesOn (W.forks work.now) (W.closes work.now) (W.may work.now) (W.faults work.now) core.old core.new }
    ensures rests { OnOk result (IsAtRest core.new) }
{
    let mut run = work.begin(theory, parents)?;
    for _ in 0..u64::MAX {
        if take_turn(core, work, &mut run, theory)? {
            return Ok(());
        }
    }
    Err(AllocError)
}

/// Runs a proof that was taken, the only one, until its outcome is delivered.
fn run_proof<W: Work>(
    core: &mut Core<W>,
    work: &W,
    number: u32,
    goal: &W::Goal,
) -> Result<(), AllocError>
    requires alone { IsProofAlone core.old number goal.now }
    requires forked { (i : ℕ) × (k : ℕ) × (command : ℕ) × W.forks work.now i k command goal.now }
    ensures goes_on { GoesOn (W.forks work.now) (W.closes work.now) (W.may work.now) (W.faults work.now) core.old core.new }
    ensures rests { OnOk result (IsAtRest core.new) }
{
    let mut proving = work.start(goal)?;
    for _ in 0..u64::MAX {
        if let Some(outcome) = work.advance(goal, &mut proving, &Unwatched)? {
            let fault = work.is_fault(&outcome);
            core.deliver(number, outcome, fault)?;
            return Ok(());
        }
    }
    Err(AllocError)
}

/// Takes what is there to do and runs it; whether all is finished.
fn take_and_run<W: Work>(core: &mut Core<W>, work: &W) -> Result<bool, AllocError>
    requires legal { IsLegal (W.shape work.now) (W.forks work.now) (W.closes work.now) (W.may work.now) (W.faults work.now) core.old }
    requires rests { IsAtRest core.old }
    ensures goes_on { GoesOn (W.forks work.now) (W.closes work.now) (W.may work.now) (W.faults work.now) core.old core.new }
    ensures rests { IfOk result (λ finished. MatchBool finished (IsFinished core.new) (IsAtRest core.new)) }
{
    match core.take()? {
        Task::Theory { index, parents } => {
            run_theory(core, work, index, parents.as_slice())?;
            Ok(false)
        }
        Task::Proof { number, goal } => {
            run_proof(core, work, number, &goal)?;
            Ok(false)
        }
        Task::Finished => Ok(true),
        Task::Idle => unreachable!(),
        Task::Stopped => unreachable!(),
    }
}

/// Takes and runs until all is finished, by one worker. Where memory is wanted the state is that of a legal run that goes on
/// from the one before. No event of it stops the work.
///
/// # Errors
///
/// Want of memory alone.
pub fn drain<W: Work>(core: &mut Core<W>, work: &W) -> Result<(), AllocError>
    requires legal { IsLegal (W.shape work.now) (W.forks work.now) (W.closes work.now) (W.may work.now) (W.faults work.now) core.old }
    requires rests { IsAtRest core.old }
    ensures goes_on { GoesOn (W.forks work.now) (W.closes work.now) (W.may work.now) (W.faults work.now) core.old core.new }
    ensures legal { IsLegal (W.shape work.now) (W.forks work.now) (W.closes work.now) (W.may work.now) (W.faults work.now) core.new }
    ensures finished { OnOk result (IsFinished core.new) }
{
    for _ in 0..u64::MAX {
        if take_and_run(core, work)? {
            return Ok(());
        }
    }
    Err(AllocError)
}
