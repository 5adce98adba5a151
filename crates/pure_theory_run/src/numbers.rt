//! Places and counts as numbers of 32 bits.
ghost use Rattle.std.specs.Prelude.{◌≡◌, ◌+◌, IfOk};

use std::alloc::AllocError;

/// A place or a count as a number of 32 bits, where it is one.
fn number_of(count: usize) -> Result<u32, AllocError>
    ensures { IfOk result (λ number. number ≡ count) }
{
    match u32::try_from(count) {
        Ok(number) => Ok(number),
        Err(_) => Err(AllocError),
    }
}

/// The index of the theory behind so many others, where it is a number of 32 bits.
pub(crate) fn index_behind(place: usize) -> Result<u32, AllocError>
    ensures { IfOk result (λ index. index ≡ place + 1) }
{
    let number = number_of(place)?;
    match number.checked_add(1) {
        Some(index) => Ok(index),
        None => Err(AllocError),
    }
}
