//! The axioms that a lemma cites: those that its proof names, and the proofs of the lemmas that it reaches.
ghost use Rattle.std.specs.Prelude.{◌≡◌, ◌↔◌, ◌⊎◌, ◌<◌, ℕ, IsTrue, IfOk, OnOk, length, map};
ghost use Rattle.pure_lookup.specs.Laws.{IsInSession};
ghost use Rattle.pure_order_tables.specs.Rows.{Holds};
ghost use Rattle.pure_promise_fates.specs.Entries.{AreEntries};
ghost use Rattle.pure_table.specs.Promise.Seen.{seen, reported};
ghost use Rattle.pure_table.specs.Theory.Stage.{IsSound};
ghost use Rattle.pure_citations.specs.Cited.{forks, AreInSession, AreBeside, IsNamedBy, IsNamedAt, IsBefore, HasNameAt, AreCitedBy};
ghost use Rattle.pure_citations.specs.Named.{NamesAxiom};
ghost use Rattle.pure_citations.specs.Reached.{Gains};

use crate::facts::put_script;
use crate::reach::put_reached;
use crate::rows::{holds, put};
use pure_promise_fates::Reported;
use pure_table::declare::Duty;
use pure_table::promise::Entry;
use pure_table::theory::Theory;
use pure_typ::{Name, NamesByBase};
use std::alloc::{AllocError, Global};
use std::sync::Arc;

/// The theory before the lemma.
fn theory_of(duty: &Duty) -> &Theory
    ensures value { result.now ≡ duty.now.content }
    ensures sound { IsSound duty.now.content }
{
    let theory = &*duty.stage;
    theory.content_is_sound();
    theory
}

/// The name of the lemma that is proved, or in which the statement stands.
fn lemma_of(duty: &Duty) -> Name
    ensures { result ≡ duty.now.lemma }
{
    duty.lemma
}

/// Puts in the axioms that the steps of the proof name.
pub(crate) fn put_named(
    names: &NamesByBase,
    duty: &Duty,
    cited: &mut Vec<u64>,
) -> Result<(), AllocError>
    requires { IsInSession names.now duty.now.content }
    ensures { OnOk result (Gains (λ n. NamesAxiom names.now duty.now.content duty.now.lemma duty.now.script n) cited.old.items cited.new.items) }
{
    put_script(
        names,
        theory_of(duty),
        lemma_of(duty),
        duty.script.as_slice(),
        cited,
    )?;
    Ok(())
}

/// The same where a proof shows the lemma.
fn put_shown(
    names: &NamesByBase,
    entry: &Entry,
    duty: &Duty,
    cited: &mut Vec<u64>,
) -> Result<(), AllocError>
    requires { IsInSession names.now duty.now.content }
    ensures { OnOk result (Gains (λ n. IsNamedBy names.now duty.now (reported entry.now) n) cited.old.items cited.new.items) }
{
    match entry.rests() {
        Some(_) => {
            put_named(names, duty, cited)?;
            Ok(())
        }
        None => Ok(()),
    }
}

/// The same where the row holds the place of the lemma.
fn put_at(
    names: &NamesByBase,
    entries: &[Entry],
    duties: &[Arc<Duty>],
    row: &[u64],
    place: usize,
    cited: &mut Vec<u64>,
) -> Result<(), AllocError>
    requires session { AreInSession names.now (forks duties.now) }
    requires entry { place < length entries.now }
    requires duty { place < length duties.now }
    ensures { OnOk result (Gains (λ n. IsNamedAt names.now row.now (forks duties.now) (map reported entries.now) n place) cited.old.items cited.new.items) }
{
    if holds(row, place) {
        let duty = &*duties[place];
        put_shown(names, &entries[place], duty, cited)?;
        return Ok(());
    }
    Ok(())
}

/// The same of all lemmas.
fn put_all(
    names: &NamesByBase,
    entries: &[Entry],
    duties: &[Arc<Duty>],
    row: &[u64],
    cited: &mut Vec<u64>,
) -> Result<(), AllocError>
    requires session { AreInSession names.now (forks duties.now) }
    requires long { length duties.now ≡ length entries.now }
    ensures { OnOk result (Gains (λ n. IsBefore (IsNamedAt names.now row.now (forks duties.now) (map reported entries.now) n) (length entries.now)) cited.old.items cited.new.items) }
{
    for place in 0..entries.len() {
        put_at(names, entries, duties, row, place, cited)?;
    }
    Ok(())
}

/// The number of the name.
fn number_of(name: Name) -> u32
    ensures { result ≡ name }
{
    name.0
}

/// Whether the lemma has this name.
fn has_name(entry: &Entry, name: Name) -> bool
    ensures { IsTrue result ↔ (entry.now.name ≡ name) }
{
    let own = number_of(entry.name);
    let other = number_of(name);
    own == other
}

/// Puts in the place of the lemma, if it has this name.
fn put_if_named(
    entries: &[Entry],
    name: Name,
    place: usize,
    row: &mut Vec<u64>,
) -> Result<(), AllocError>
    requires { place < length entries.now }
    ensures { OnOk result ((p : ℕ) → Holds row.new.items p ↔ (((p ≡ place) × HasNameAt (seen entries.now) name place) ⊎ Holds row.old.items p)) }
{
    if has_name(&entries[place], name) {
        put(row, place)?;
        return Ok(());
    }
    Ok(())
}

/// Puts in the places of the lemmas of this name.
pub(crate) fn put_lemmas(
    entries: &[Entry],
    name: Name,
    row: &mut Vec<u64>,
) -> Result<(), AllocError>
    ensures { OnOk result ((p : ℕ) → Holds row.new.items p ↔ (((p < length entries.now) × HasNameAt (seen entries.now) name p) ⊎ Holds row.old.items p)) }
{
    for place in 0..entries.len() {
        put_if_named(entries, name, place, row)?;
    }
    Ok(())
}

/// The axioms that the lemmas of this name cite, as a row of bits: of lemmas in order of their labels, and what became of
/// each.
///
/// # Errors
///
/// Want of memory alone.
pub fn cited_axioms(
    alloc: Global,
    names: &NamesByBase,
    entries: &[Entry],
    duties: &[Arc<Duty>],
    name: Name,
) -> Result<Vec<u64>, AllocError>
    requires entries { AreEntries (map reported entries.now) }
    requires session { AreInSession names.now (forks duties.now) }
    requires beside { AreBeside (forks duties.now) (seen entries.now) }
    requires long { length duties.now ≡ length entries.now }
    ensures { IfOk result (λ row. AreCitedBy names.now (forks duties.now) (seen entries.now) name row.items) }
{
    let mut row = Vec::new(alloc);
    put_lemmas(entries, name, &mut row)?;
    put_reached(entries, &mut row)?;
    let mut axioms = Vec::new(alloc);
    put_all(names, entries, duties, &row, &mut axioms)?;
    Ok(axioms)
}
