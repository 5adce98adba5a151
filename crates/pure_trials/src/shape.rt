//! Shapes of sessions.
ghost use Rattle.std.specs.Prelude.{◌≡◌, ◌<◌, ◌+◌, ◌^◌, ◌-◌, ℕ, length, vec_len, IfOk, IsTrue};
ghost use Rattle.pure_text.specs.Lists.{Each};
ghost use Rattle.pure_machine.specs.Step.{IsShape};
ghost use Rattle.pure_trials.specs.Shape.{AreBelow};

use crate::session::Session;
use pure_core::Node;
use std::alloc::{AllocError, Global};

/// Whether the numbers are below this one and none is 0.
fn are_below(parents: &[u32], number: u32) -> bool
    ensures { IsTrue result → Each (λ p. (0 < p) × (p < number)) parents.now }
{
    let Some((first, rest)) = parents.split_first() else {
        return true;
    };
    if *first == 0 {
        return false;
    }
    if *first >= number {
        return false;
    }
    are_below(rest, number)
}

/// Whether the parents of theories, numbered from this one on, come before them.
fn is_shape_from(shape: &[Node], number: u32) -> bool
    ensures { IsTrue result → AreBelow number shape.now }
{
    let Some((first, rest)) = shape.split_first() else {
        return true;
    };
    if number == u32::MAX {
        return false;
    }
    if !are_below(first.parents.as_slice(), number) {
        return false;
    }
    is_shape_from(rest, number + 1)
}

/// Whether the parents of each theory come before it.
pub fn is_shape(shape: &[Node]) -> bool
    ensures { IsTrue result → IsShape shape.now }
{
    is_shape_from(shape, 1)
}

/// The theory once more.
fn copied_node(node: &Node) -> Result<Node, AllocError>
    ensures { IfOk result (λ copy. copy ≡ node.now) }
{
    let parents = node.parents.clone()?;
    Ok(Node { parents })
}

/// The shape once more.
pub fn copied(alloc: Global, shape: &[Node]) -> Result<Vec<Node>, AllocError>
    ensures { IfOk result (λ copy. copy.items ≡ shape.now) }
{
    let mut copy = Vec::new(alloc);
    for node in shape {
        copy.push(copied_node(node)?)?;
    }
    Ok(copy)
}

/// The session's shape.
///
/// # Errors
///
/// Want of memory, and a shape that is none or too long.
pub fn shape_of(alloc: Global, session: &Session) -> Result<Vec<Node>, AllocError>
    ensures session { IfOk result (λ shape. shape.items ≡ session.now.shape.items) }
    ensures formed { IfOk result (λ shape. IsShape shape.items) }
    ensures few { IfOk result (λ shape. vec_len shape < 2 ^ 32 - 1) }
{
    let shape = copied(alloc, session.shape.as_slice())?;
    if !is_shape(shape.as_slice()) {
        return Err(AllocError);
    }
    if shape.len() > 1_000_000 {
        return Err(AllocError);
    }
    Ok(shape)
}
