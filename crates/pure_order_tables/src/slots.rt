//! The places of a constructor's arities.
ghost use Rattle.std.specs.Prelude.{◌≡◌, ℕ, List, IfOk, map};
ghost use Rattle.pure_shared_maps.specs.View.{pairs_of};

use pure_shared_maps::{Entry, GrownMap};
use pure_typ::Name;
use std::alloc::{AllocError, Global};
use std::sync::Arc;

/// The place of a constructor's first arity, and by classes those of later ones that are greater there.
#[derive(Drop)]
pub struct Slot {
    pub(crate) first: usize,
    pub(crate) later: GrownMap<usize>,
}

/// The place for each of these classes.
pub(crate) fn placed(
    alloc: Global,
    classes: &[Name],
    place: usize,
) -> Result<Vec<Entry<usize>>, AllocError>
    ensures { IfOk result (λ entries. pairs_of entries.items ≡ map (λ (d : ℕ). (d, place)) classes.now) }
{
    let shared = Arc::new(alloc, place)?;
    let mut entries = Vec::with_capacity(alloc, classes.len())?;
    for class in classes {
        let value = Arc::try_clone(&shared)?;
        entries.push(Entry {
            key: class.0,
            value,
        })?;
    }
    Ok(entries)
}
