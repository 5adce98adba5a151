//! Rows of bits: sets of numbers, in words of 64 bits.
ghost use Rattle.std.specs.Prelude.{◌≡◌, ◌↔◌, ◌⊎◌, ◌<◌, ◌≤◌, ◌/◌, ℕ, IsTrue, MatchBool, IfOk, length, slice_index};
ghost use Rattle.pure_order_tables.specs.Rows.{Holds};

use std::alloc::{AllocError, Global};

/// A row that holds none, with so many words.
pub(crate) fn empty_row(alloc: Global, count: usize) -> Result<Vec<u64>, AllocError>
    ensures none { IfOk result (λ row. (place : ℕ) → ¬ Holds row.items place) }
    ensures count { IfOk result (λ row. length row.items ≡ count) }
{
    Vec::from_elem(alloc, 0, count)
}

/// Whether the row holds the number.
pub(crate) fn holds(row: &[u64], place: usize) -> bool
    ensures { IsTrue result ↔ Holds row.now place }
{
    place / 64 < row.len() && (row[place / 64] >> (place % 64)) & 1 == 1
}

/// Whether the first row holds the number, and the second doesn't.
pub(crate) fn holds_only(first: &[u64], second: &[u64], place: usize) -> bool
    ensures { MatchBool result (Holds first.now place × (¬ Holds second.now place)) ((¬ Holds first.now place) ⊎ Holds second.now place) }
{
    holds(first, place) && !holds(second, place)
}

/// Puts the number into the row.
pub(crate) fn put_place(row: &mut Vec<u64>, place: usize)
    requires { place / 64 < length row.old.items }
    ensures held { (other : ℕ) → Holds row.new.items other ↔ ((other ≡ place) ⊎ Holds row.old.items other) }
    ensures count { length row.new.items ≡ length row.old.items }
{
    row[place / 64] |= 1 << (place % 64);
}

/// Puts in what the other row holds, as far as the row goes.
pub(crate) fn put_row(row: &mut Vec<u64>, other: &[u64])
    ensures held { (place : ℕ) → Holds row.new.items place ↔ (Holds row.old.items place ⊎ ((place / 64 < length row.old.items) × Holds other.now place)) }
    ensures count { length row.new.items ≡ length row.old.items }
{
    for i in 0..row.len().min(other.len()) {
        let word = other[i];
        row[i] |= word;
    }
}

/// Puts in what both others hold, as far as the row goes.
pub(crate) fn put_common(row: &mut Vec<u64>, first: &[u64], second: &[u64])
    ensures held { (place : ℕ) → Holds row.new.items place ↔ (Holds row.old.items place ⊎ ((place / 64 < length row.old.items) × Holds first.now place × Holds second.now place)) }
    ensures count { length row.new.items ≡ length row.old.items }
{
    for i in 0..row.len().min(first.len()).min(second.len()) {
        let word = first[i] & second[i];
        row[i] |= word;
    }
}

/// Puts into the words, which stand in a frame, what the row holds, as far as they go.
pub(crate) fn put_words(words: &mut [u64; 64], row: &[u64])
    ensures { (place : ℕ) → Holds words.new place ↔ (Holds words.old place ⊎ ((place < 4096) × Holds row.now place)) }
{
    for i in 0..row.len().min(64) {
        let word = row[i];
        words[i] |= word;
    }
}

/// Whether some number is in both rows.
pub(crate) fn meet(first: &[u64], second: &[u64]) -> bool
    ensures { IsTrue result ↔ ((place : ℕ) × Holds first.now place × Holds second.now place) }
{
    for i in 0..first.len().min(second.len()) {
        if first[i] & second[i] != 0 {
            return true;
        }
    }
    false
}

/// The word at the place; 0 where the row has none.
fn word_at(row: &[u64], place: usize) -> u64
    ensures { result ≡ slice_index row.now place }
{
    if place < row.len() { row[place] } else { 0 }
}

/// Whether the first row holds numbers alone that the second holds.
pub(crate) fn within(first: &[u64], second: &[u64]) -> bool
    ensures { IsTrue result ↔ ((place : ℕ) → Holds first.now place → Holds second.now place) }
{
    for i in 0..first.len() {
        let word = first[i];
        if word & word_at(second, i) != word {
            return false;
        }
    }
    true
}

/// Where those numbers below this one end that the first row may hold and the second not: past the number's word, if it holds none of them, and past
/// all that the first row has no words for.
pub(crate) fn end_below(first: &[u64], second: &[u64], number: usize) -> usize
    ensures below { result ≤ number }
    ensures passed { (place : ℕ) → result ≤ place → place < number → Holds first.now place → Holds second.now place }
{
    if first.len() <= number / 64 {
        return first.len() * 64;
    }
    let word = word_at(first, number / 64);
    if word & word_at(second, number / 64) == word {
        return number / 64 * 64;
    }
    number
}
