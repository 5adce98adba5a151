//! How many threads there is room for.
ghost use Rattle.std.specs.Prelude.{◌≤◌};

use std::alloc::Global;

/// The bytes that a thread takes for its memory when it first asks for some, beside its stack.
const HEAP: usize = 64 << 20;

/// The bytes that stay for all else. For a moment a thread that takes its memory takes as much once more.
const SPARE: usize = 112 << 20;

/// Takes room for so many bytes, which nothing is written into; whether it is to be had.
fn takes(alloc: Global, rooms: &mut Vec<Vec<u8>>, bytes: usize) -> bool {
    match Vec::with_capacity(alloc, bytes) {
        Ok(room) => rooms.push(room).is_ok(),
        Err(_) => false,
    }
}

/// How many threads of this stack, in bytes, there is room for at once, at most so many. Room is asked for all of them before
/// the first begins, since each takes most of its own only once it runs; it is given back at once.
pub fn threads_in_room(alloc: Global, stack: usize, most: usize) -> usize
    ensures { result ≤ most }
{
    if most == 0 {
        return 0;
    }
    let mut rooms = Vec::new(alloc);
    if !takes(alloc, &mut rooms, SPARE) {
        return 0;
    }
    for number in 0..most {
        if !takes(alloc, &mut rooms, stack.saturating_add(HEAP)) {
            return number;
        }
    }
    most
}
