//! Additions to maps that share their parts.
ghost use Rattle.std.specs.Prelude.{◌≡◌, IfOk, None};
ghost use Rattle.std.specs.FinMap as map;

use pure_shared_maps::Shelf;
use std::alloc::AllocError;
use std::sync::Arc;

/// The map with one pair more; want of memory where it has as many pairs as can be counted.
pub(crate) fn put<V: Drop>(
    shelf: &Shelf<V>,
    key: u32,
    value: Arc<V>,
) -> Result<Shelf<V>, AllocError>
    requires { map.get shelf.now key ≡ None }
    ensures { IfOk result (λ more. more ≡ map.insert shelf.now key value.value) }
{
    if shelf.count() >= u32::MAX {
        return Err(AllocError);
    }
    let more = shelf.with(key, value)?;
    Ok(more)
}
