//! The failed lemmas that a lemma reaches.
ghost use Rattle.std.specs.Prelude.{◌≡◌, ◌<◌, IfOk, OnOk, length, map};
ghost use Rattle.pure_promise_fates.specs.Entries.{AreEntries};
ghost use Rattle.pure_table.specs.Promise.Seen.{seen, seen_entry, reported};
ghost use Rattle.pure_citations.specs.Cited.{IsBefore};
ghost use Rattle.pure_citations.specs.Faults.{IsFaulty, IsFaultyAt, AreFaultsOf};
ghost use Rattle.pure_citations.specs.Reached.{Gains};

use crate::cited::put_lemmas;
use crate::facts::put_name;
use crate::reach::put_reached;
use crate::rows::holds;
use pure_promise_fates::Reported;
use pure_table::promise::Entry;
use pure_typ::Name;
use std::alloc::{AllocError, Global};

/// Puts in the name of the lemma, if its proof is at fault.
fn put_if_fault(entry: &Entry, faults: &mut Vec<u64>) -> Result<(), AllocError>
    ensures { OnOk result (Gains (λ n. IsFaulty (seen_entry entry.now) × (entry.now.name ≡ n)) faults.old.items faults.new.items) }
{
    if entry.is_fault() {
        put_name(faults, entry.name)?;
        return Ok(());
    }
    Ok(())
}

/// The same where the row holds the place of the lemma.
fn put_fault(
    entries: &[Entry],
    row: &[u64],
    place: usize,
    faults: &mut Vec<u64>,
) -> Result<(), AllocError>
    requires { place < length entries.now }
    ensures { OnOk result (Gains (λ n. IsFaultyAt (seen entries.now) row.now n place) faults.old.items faults.new.items) }
{
    if holds(row, place) {
        put_if_fault(&entries[place], faults)?;
        return Ok(());
    }
    Ok(())
}

/// The same of all lemmas.
fn put_faults(entries: &[Entry], row: &[u64], faults: &mut Vec<u64>) -> Result<(), AllocError>
    ensures { OnOk result (Gains (λ n. IsBefore (IsFaultyAt (seen entries.now) row.now n) (length entries.now)) faults.old.items faults.new.items) }
{
    for place in 0..entries.len() {
        put_fault(entries, row, place, faults)?;
    }
    Ok(())
}

/// The names of the failed lemmas that the lemmas of this name reach, themselves among them, as a row of bits: of lemmas in
/// order of their labels.
///
/// # Errors
///
/// Want of memory alone.
pub fn reached_faults(alloc: Global, entries: &[Entry], name: Name) -> Result<Vec<u64>, AllocError>
    requires { AreEntries (map reported entries.now) }
    ensures { IfOk result (λ row. AreFaultsOf (seen entries.now) name row.items) }
{
    let mut row = Vec::new(alloc);
    put_lemmas(entries, name, &mut row)?;
    put_reached(entries, &mut row)?;
    let mut faults = Vec::new(alloc);
    put_faults(entries, &row, &mut faults)?;
    Ok(faults)
}
