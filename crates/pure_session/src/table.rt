//! Tables of which places lead to which: a row for each place, in which the places are marked that it leads to.
ghost use Rattle.std.specs.Prelude.{◌≡◌, ◌⊎◌, ◌↔◌, ◌<◌, ℕ, true, false, length, get_or, IfOk, OnOk};
ghost use Rattle.pure_session.specs.Places.{cells, is_marked as is_marked_in, HasMark, IsMarked, IsJoined, Path};

use std::alloc::{AllocError, Global};

/// Whether the place is marked in the row.
fn has(row: &[bool], place: usize) -> bool
    ensures { result ≡ get_or row.now place false }
{
    match row.get(place) {
        Some(marked) => *marked,
        None => false,
    }
}

/// Whether the one place leads to the other.
pub(crate) fn is_marked(rows: &[Vec<bool>], from: usize, to: usize) -> bool
    ensures { result ≡ is_marked_in (cells rows.now) from to }
{
    match rows.get(from) {
        Some(row) => has(row.as_slice(), to),
        None => false,
    }
}

/// Makes the row long enough for the place.
fn lengthen(row: &mut Vec<bool>, place: usize) -> Result<(), AllocError>
    ensures long { OnOk result (place < length row.new.items) }
    ensures same { OnOk result ((i : ℕ) → HasMark row.new.items i ↔ HasMark row.old.items i) }
{
    if place < row.len() {
        return Ok(());
    }
    let Some(length) = place.checked_add(1) else {
        return Err(AllocError);
    };
    row.resize(length, false)?;
    Ok(())
}

/// Marks the place in the row.
pub(crate) fn mark(row: &mut Vec<bool>, place: usize) -> Result<(), AllocError>
    ensures { OnOk result ((i : ℕ) → HasMark row.new.items i ↔ (HasMark row.old.items i ⊎ (i ≡ place))) }
{
    lengthen(row, place)?;
    row[place] = true;
    Ok(())
}

/// Marks the place in the row, if it is to be marked.
fn mark_if(row: &mut Vec<bool>, place: usize, is_set: bool) -> Result<(), AllocError>
    ensures { OnOk result ((i : ℕ) → HasMark row.new.items i ↔ (HasMark row.old.items i ⊎ ((i ≡ place) × (is_set ≡ true)))) }
{
    if !is_set {
        return Ok(());
    }
    mark(row, place)?;
    Ok(())
}

/// Marks in the row what is marked in the other.
fn mark_all(row: &mut Vec<bool>, other: &[bool]) -> Result<(), AllocError>
    ensures { OnOk result ((i : ℕ) → HasMark row.new.items i ↔ (HasMark row.old.items i ⊎ HasMark other.now i)) }
{
    for place in 0..other.len() {
        mark_if(row, place, has(other, place))?;
    }
    Ok(())
}

/// The row, and what the place that has the other row leads to, if the row leads to that place.
fn joined(row: Vec<bool>, through: usize, other: &[bool]) -> Result<Vec<bool>, AllocError>
    ensures { IfOk result (λ all. IsJoined through other.now row.items all.items) }
{
    let mut all = row;
    if !has(all.as_slice(), through) {
        return Ok(all);
    }
    mark_all(&mut all, other)?;
    Ok(all)
}

/// A copy of the row of a place.
fn row_of(alloc: Global, rows: &[Vec<bool>], place: usize) -> Result<Vec<bool>, AllocError>
    ensures { IfOk result (λ row. (i : ℕ) → get_or row.items i false ≡ is_marked_in (cells rows.now) place i) }
{
    match rows.get(place) {
        Some(row) => Ok(Vec::from_slice(alloc, row.as_slice())?),
        None => Ok(Vec::new(alloc)),
    }
}

/// The table in which each place leads also to where the one place leads, if it leads to that.
fn pass(alloc: Global, rows: Vec<Vec<bool>>, through: usize) -> Result<Vec<Vec<bool>>, AllocError>
    ensures { IfOk result (λ passed. (i j : ℕ) → IsMarked (cells passed.items) i j ↔ (IsMarked (cells rows.items) i j ⊎ (IsMarked (cells rows.items) i through × IsMarked (cells rows.items) through j))) }
{
    let other = row_of(alloc, rows.as_slice(), through)?;
    let mut passed = Vec::new(alloc);
    for row in rows {
        let row = joined(row, through, other.as_slice())?;
        passed.push(row)?;
    }
    Ok(passed)
}

/// The table in which each place leads to all that it reaches.
pub(crate) fn close(alloc: Global, rows: Vec<Vec<bool>>) -> Result<Vec<Vec<bool>>, AllocError>
    ensures { IfOk result (λ closed. (i j : ℕ) → IsMarked (cells closed.items) i j ↔ Path (is_marked_in (cells rows.items)) (length rows.items) i j) }
{
    let count = rows.len();
    let mut closed = rows;
    for through in 0..count {
        let next = pass(alloc, closed, through)?;
        closed = next;
    }
    Ok(closed)
}
