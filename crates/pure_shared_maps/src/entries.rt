//! The entries of a run: the one with a key, and the entries of two runs.
ghost use Rattle.std.specs.Prelude.{◌≡◌, ◌∷◌, [], ◌++◌, ◌≤◌, ◌<◌, ℕ, IsTrue, IfOk, OnOk, None, Some, MatchOption, length, drop};
ghost use Rattle.std.specs.Ordering.{nat_cmp};
ghost use Rattle.std.specs.FinMap.{find};
ghost use Rattle.pure_text.specs.Lists.{Each};
ghost use Rattle.pure_shared_maps.specs.Pairs.{Ascends, HasSame, IsPlaceOf};
ghost use Rattle.pure_shared_maps.specs.View.{pair_of, pairs_of};

use std::alloc::{AllocError, Global};
use std::sync::Arc;

/// A key with its value, which other runs share.
#[derive(Drop)]
pub struct Entry<V> {
    pub key: u32,
    pub value: Arc<V>,
}

/// An entry with the same key and value.
pub(crate) fn shared_entry<V: Drop>(entry: &Entry<V>) -> Result<Entry<V>, AllocError>
    ensures { IfOk result (λ e. pair_of e ≡ pair_of entry.now) }
{
    let value = Arc::try_clone(&entry.value)?;
    Ok(Entry {
        key: entry.key,
        value,
    })
}

/// Appends an entry with the same key and value.
fn push_shared<V: Drop>(run: &mut Vec<Entry<V>>, entry: &Entry<V>) -> Result<(), AllocError>
    ensures { OnOk result (pairs_of run.new.items ≡ pairs_of run.old.items ++ pair_of entry.now ∷ []) }
{
    let entry = shared_entry(entry)?;
    run.push(entry)?;
    Ok(())
}

/// Appends entries with the same keys and values, from this place on.
fn push_rest<V: Drop>(
    run: &mut Vec<Entry<V>>,
    entries: &[Entry<V>],
    from: usize,
) -> Result<(), AllocError>
    ensures { OnOk result (pairs_of run.new.items ≡ pairs_of run.old.items ++ pairs_of (drop from entries.now)) }
{
    for place in from..entries.len() {
        push_shared(run, &entries[place])?;
    }
    Ok(())
}

/// The entries of both runs, in the order of their keys.
fn merged<V: Drop>(
    alloc: Global,
    first: &[Entry<V>],
    second: &[Entry<V>],
) -> Result<Vec<Entry<V>>, AllocError>
    requires first_ascends { Ascends (pairs_of first.now) }
    requires second_ascends { Ascends (pairs_of second.now) }
    ensures ascends { IfOk result (λ run. Ascends (pairs_of run.items)) }
    ensures same { IfOk result (λ run. HasSame (pairs_of run.items) (pairs_of first.now ++ pairs_of second.now)) }
{
    let mut run = Vec::with_capacity(alloc, first.len().saturating_add(second.len()))?;
    let mut of_first = 0;
    let mut of_second = 0;
    while of_first < first.len() && of_second < second.len() {
        let left = &first[of_first];
        let right = &second[of_second];
        if right.key < left.key {
            push_shared(&mut run, right)?;
            of_second += 1;
        } else {
            push_shared(&mut run, left)?;
            of_first += 1;
        }
    }
    push_rest(&mut run, first, of_first)?;
    push_rest(&mut run, second, of_second)?;
    Ok(run)
}

/// Whether the last key is less, and so each.
fn are_less<V>(entries: &[Entry<V>], key: u32) -> bool
    requires { Ascends (pairs_of entries.now) }
    ensures { IsTrue result → Each (λ p. p.0 < key) (pairs_of entries.now) }
{
    match entries.last() {
        None => true,
        Some(last) => last.key < key,
    }
}

/// Whether the entries of the second run, which has some, may stand behind those of the first.
fn may_follow<V>(first: &[Entry<V>], second: &[Entry<V>]) -> bool
    requires first_ascends { Ascends (pairs_of first.now) }
    requires second_ascends { Ascends (pairs_of second.now) }
    ensures { IsTrue result → Ascends (pairs_of first.now ++ pairs_of second.now) }
{
    if second.is_empty() {
        return false;
    }
    are_less(first, second[0].key)
}

/// The entries of the first run, and behind them those of the second, which are moved.
fn appended<V: Drop>(
    alloc: Global,
    first: &[Entry<V>],
    second: Vec<Entry<V>>,
) -> Result<Vec<Entry<V>>, AllocError>
    ensures { IfOk result (λ run. pairs_of run.items ≡ pairs_of first.now ++ pairs_of second.items) }
{
    let mut rest = second;
    let mut run = Vec::with_capacity(alloc, first.len().saturating_add(rest.len()))?;
    push_rest(&mut run, first, 0)?;
    run.append(&mut rest)?;
    Ok(run)
}

/// The entries of both runs, in the order of their keys. Where those of the second, which is let go of, may stand behind the first, they are moved there.
pub(crate) fn united<V: Drop>(
    alloc: Global,
    first: &[Entry<V>],
    second: Vec<Entry<V>>,
) -> Result<Vec<Entry<V>>, AllocError>
    requires first_ascends { Ascends (pairs_of first.now) }
    requires second_ascends { Ascends (pairs_of second.items) }
    ensures ascends { IfOk result (λ run. Ascends (pairs_of run.items)) }
    ensures same { IfOk result (λ run. HasSame (pairs_of run.items) (pairs_of first.now ++ pairs_of second.items)) }
{
    if may_follow(first, second.as_slice()) {
        let run = appended(alloc, first, second)?;
        return Ok(run);
    }
    let run = merged(alloc, first, second.as_slice())?;
    Ok(run)
}

/// The place of the first entry whose key isn't less. Keys mostly come in rising order, so that the last one often tells.
fn place_of<V>(entries: &[Entry<V>], key: u32) -> usize
    requires { Ascends (pairs_of entries.now) }
    ensures { IsPlaceOf (pairs_of entries.now) key result }
{
    if are_less(entries, key) {
        return entries.len();
    }
    entries.partition_point(|entry| entry.key < key)
}

/// The pointer to the value at a key.
pub(crate) fn found<V>(entries: &[Entry<V>], key: u32) -> Option<&Arc<V>>
    requires { Ascends (pairs_of entries.now) }
    ensures { MatchOption result (find nat_cmp key (pairs_of entries.now) ≡ None) (λ v. find nat_cmp key (pairs_of entries.now) ≡ Some v.now.value) }
{
    let place = place_of(entries, key);
    if place >= entries.len() {
        return None;
    }
    let entry = &entries[place];
    if entry.key != key {
        return None;
    }
    Some(&entry.value)
}
