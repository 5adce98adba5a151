//! The object on a desk, as its history determines it.
ghost use Rattle.std.specs.Prelude.{ℕ, List};

/// How an object `C` comes of its history: the events `E` of a session `K` that was opened by `O`. An entry of the history is an
/// event with the number of the seat that entered it.
pub trait Course<C, K, O, E> {
    // What the object was opened by.
    ghost opened: { C → O };

    // The events of the object, in order.
    ghost history: { C → List E };

    // The object that was opened so, after these entries.
    ghost after: { O → List (ℕ × E) → C };

    // These entries may be made in a session that was opened so, one after the other.
    ghost legal: { K → O → List (ℕ × E) → Type 0 };
}
