//! Inserting where there is room.
ghost use Rattle.std.specs.Prelude.{◌≡◌, ◌≤◌, ◌+◌, vec_len, vec_capacity};
ghost use Rattle.std.specs.List.{insert};

/// Inserts a place where there is room for it, which can't fail.
pub fn insert_in_room(places: &mut Vec<usize>, at: usize, place: usize)
    requires there { at ≤ vec_len places.old }
    requires room { vec_len places.old + 1 ≤ vec_capacity places.old }
    ensures { places.new.items ≡ insert places.old.items at place }
{
    let _ = places.insert(at, place);
}
