//! Rows of bits: sets of places, in words of 64 bits.
ghost use Rattle.std.specs.Prelude.{◌≡◌, ◌↔◌, ◌⊎◌, ◌<◌, ◌/◌, ℕ, IsTrue, length};
ghost use Rattle.pure_order_tables.specs.Rows.{Holds};

/// Whether the row holds the place.
pub(crate) fn holds(row: &[u64], place: usize) -> bool
    ensures { IsTrue result ↔ Holds row.now place }
{
    place / 64 < row.len() && (row[place / 64] >> (place % 64)) & 1 == 1
}

/// Puts the place into the row.
pub(crate) fn put_place(row: &mut Vec<u64>, place: usize)
    requires { place / 64 < length row.old.items }
    ensures held { (other : ℕ) → Holds row.new.items other ↔ ((other ≡ place) ⊎ Holds row.old.items other) }
    ensures count { length row.new.items ≡ length row.old.items }
{
    row[place / 64] |= 1 << (place % 64);
}

/// Puts in what the other row holds, as far as the row goes.
pub(crate) fn put_row(row: &mut Vec<u64>, other: &[u64])
    ensures held { (place : ℕ) → Holds row.new.items place ↔ (Holds row.old.items place ⊎ ((place / 64 < length row.old.items) × Holds other.now place)) }
    ensures count { length row.new.items ≡ length row.old.items }
{
    for i in 0..row.len().min(other.len()) {
        let word = other[i];
        row[i] |= word;
    }
}

/// Whether the row holds none.
pub(crate) fn is_empty(row: &[u64]) -> bool
    ensures { IsTrue result ↔ ((place : ℕ) → ¬ Holds row.now place) }
{
    for i in 0..row.len() {
        if row[i] != 0 {
            return false;
        }
    }
    true
}
