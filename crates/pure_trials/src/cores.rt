//! Cores in states that calls lead to.
ghost use Rattle.std.specs.Prelude.{◌≡◌, ◌<◌, ◌-◌, ◌^◌, vec_len};
ghost use Rattle.pure_machine.specs.Step.{IsShape};

use crate::session::Session;
use crate::shape::shape_of;
use pure_core::{Core, Node, Policy, drain, open};
use std::alloc::{AllocError, Global};

/// The core of the session with this shape, stopped at its opening.
fn stopped_at_opening(
    alloc: Global,
    session: &Session,
    shape: Vec<Node>,
    policy: Policy,
) -> Result<Core<Session>, AllocError>
    requires session { shape.items ≡ session.now.shape.items }
    requires formed { IsShape shape.items }
    requires few { vec_len shape < 2 ^ 32 - 1 }
{
    let mut core = open(alloc, session, shape, policy, 1)?;
    core.stop();
    Ok(core)
}

/// The core at the opening of the session.
///
/// # Errors
///
/// Want of memory, and a session that is none.
pub fn opened(
    alloc: Global,
    session: &Session,
    policy: Policy,
) -> Result<Core<Session>, AllocError> {
    let shape = shape_of(alloc, session)?;
    open(alloc, session, shape, policy, 1)
}

/// The core of the session, stopped at its opening.
///
/// # Errors
///
/// Want of memory, and a session that is none.
pub fn stopped(
    alloc: Global,
    session: &Session,
    policy: Policy,
) -> Result<Core<Session>, AllocError> {
    let shape = shape_of(alloc, session)?;
    stopped_at_opening(alloc, session, shape, policy)
}

/// The core of the session, drained.
///
/// # Errors
///
/// Want of memory, and a session that is none.
pub fn drained(
    alloc: Global,
    session: &Session,
    policy: Policy,
) -> Result<Core<Session>, AllocError> {
    let shape = shape_of(alloc, session)?;
    let mut core = open(alloc, session, shape, policy, 1)?;
    drain(&mut core, session)?;
    Ok(core)
}
