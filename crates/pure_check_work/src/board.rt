//! The session checked by workers on a board.
ghost use Rattle.std.specs.Prelude.{◌≡◌, ◌<◌, IfOk};
ghost use Rattle.pure_check_work.specs.Boards.{IsBoardOf};

use crate::checking::Checking;
use pure_board::Closed;
use pure_core::Policy;
use pure_io::Gate;
use pure_pool::execute;
use std::alloc::AllocError;
use std::sync::Wait;
use std::thread::Threads;

/// Has so many workers check the session on a board with this policy, and gives the board once it is closed (Wenzel,
/// Parallel Proof Checking in Isabelle/Isar, 2009). The gate is entered before each proof and left after its outcome was
/// delivered. It may wait for ever.
///
/// # Errors
///
/// Want of memory alone.
pub fn checked<R: Threads + Wait + Sync, G: Gate>(
    rt: &R,
    work: &Checking,
    policy: Policy,
    workers: u32,
    gate: &G,
) -> Result<Closed<Checking>, AllocError>
    requires some { 0 < workers }
    ensures { IfOk result (IsBoardOf work.now.texts work.now.theories policy workers) }
{
    work.is_loaded_session();
    let shape = work.nodes()?;
    if shape.len() >= u32::MAX as usize {
        return Err(AllocError);
    }
    let closed = execute(rt, work.alloc, work, shape, policy, workers, gate)?;
    Ok(closed)
}
