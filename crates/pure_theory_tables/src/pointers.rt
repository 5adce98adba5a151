//! Values behind pointers that are shared.
ghost use Rattle.std.specs.Prelude.{◌≡◌, IfOk};

use std::alloc::{AllocError, Global};
use std::sync::Arc;

/// The value behind a pointer.
pub fn shared<T: Drop>(alloc: Global, value: T) -> Result<Arc<T>, AllocError>
    ensures { IfOk result (λ pointer. pointer.value ≡ value) }
{
    let pointer = Arc::new(alloc, value)?;
    Ok(pointer)
}
