//! The shape of a session: the parents of its theories, by their numbers.
ghost use Rattle.std.specs.Prelude.{◌≡◌, IfOk};
ghost use Rattle.pure_session.specs.Waiting.{all_loaded};
ghost use Rattle.pure_check_work.specs.Relations.{shape_of};

use pure_core::Node;
use pure_session::Loaded;
use std::alloc::{AllocError, Global};

/// A node with these parents.
fn node_of(parents: &Vec<u32>) -> Result<Node, AllocError>
    ensures { IfOk result (λ node. node ≡ parents.now.items) }
{
    let parents = parents.clone()?;
    Ok(Node { parents })
}

/// The shape of the theories.
pub(crate) fn shape(alloc: Global, theories: &[Loaded]) -> Result<Vec<Node>, AllocError>
    ensures { IfOk result (λ shape. shape.items ≡ shape_of (all_loaded theories.now)) }
{
    let mut shape = Vec::with_capacity(alloc, theories.len())?;
    for theory in theories {
        shape.push(node_of(&theory.parents)?)?;
    }
    Ok(shape)
}

/// The shape once more.
pub(crate) fn copied(alloc: Global, shape: &[Node]) -> Result<Vec<Node>, AllocError>
    ensures { IfOk result (λ copy. copy.items ≡ shape.now) }
{
    let mut copy = Vec::with_capacity(alloc, shape.len())?;
    for node in shape {
        copy.push(node_of(&node.parents)?)?;
    }
    Ok(copy)
}
