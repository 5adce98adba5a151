//! Rows of bits: sets of numbers, in words of 64 bits.
ghost use Rattle.std.specs.Prelude.{◌≡◌, ◌↔◌, ◌⊎◌, ◌<◌, ◌≤◌, ◌/◌, ℕ, IsTrue, OnOk, length};
ghost use Rattle.pure_order_tables.specs.Rows.{Holds};

use std::alloc::AllocError;

/// Whether the row holds the number.
pub(crate) fn holds(row: &[u64], number: usize) -> bool
    ensures { IsTrue result ↔ Holds row.now number }
{
    number / 64 < row.len() && (row[number / 64] >> (number % 64)) & 1 == 1
}

/// Widens the row to so many words at least.
fn widen(row: &mut Vec<u64>, count: usize) -> Result<(), AllocError>
    ensures held { OnOk result ((other : ℕ) → Holds row.new.items other ↔ Holds row.old.items other) }
    ensures wide { OnOk result (count ≤ length row.new.items) }
{
    for _at in row.len()..count {
        row.push(0)?;
    }
    Ok(())
}

/// Puts the number into the row, which is wide enough.
fn put_place(row: &mut Vec<u64>, number: usize)
    requires { number / 64 < length row.old.items }
    ensures { (other : ℕ) → Holds row.new.items other ↔ ((other ≡ number) ⊎ Holds row.old.items other) }
{
    row[number / 64] |= 1 << (number % 64);
}

/// Puts the number into the row.
pub(crate) fn put(row: &mut Vec<u64>, number: usize) -> Result<(), AllocError>
    ensures { OnOk result ((other : ℕ) → Holds row.new.items other ↔ ((other ≡ number) ⊎ Holds row.old.items other)) }
{
    widen(row, number / 64 + 1)?;
    put_place(row, number);
    Ok(())
}
