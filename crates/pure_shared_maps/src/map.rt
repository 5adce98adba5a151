//! Maps that share their front with the maps that they grow from.
ghost use Rattle.std.specs.Prelude.{◌≡◌, IfOk, OnOk, OnErr, MatchOption, None, Some};
ghost use Rattle.std.specs.Ordering.{nat_cmp};
ghost use Rattle.std.specs.FinMap as map;
ghost use Rattle.std.specs.FinMap.{FinMap};
ghost use Rattle.pure_shared_maps.specs.View.{front_map, map_of, pairs_of, puts};

use crate::entries::{Entry, shared_entry};
use std::alloc::{AllocError, Global};
use std::collections::BTreeMap;
use std::marker::Model;
use std::sync::Arc;

/// As many entries may stand behind a small front.
const FEW: usize = 32;

/// Behind a larger front may stand the so many-th part of what it has.
const PART: usize = 16;

/// A finite map from numbers, which contracts see as such. Its front stands behind a pointer that the maps which grow from it share; few entries stand behind the front, the latest last.
#[derive(Drop)]
pub struct GrownMap<V> {
    front: Option<Arc<BTreeMap<u32, Arc<V>>>>,
    rest: Vec<Entry<V>>,
}

impl<V> Model for GrownMap<V> {
    ghost use Rattle.std.specs.Ordering.{nat_cmp};
    ghost use Rattle.std.specs.FinMap as map;
    ghost use Rattle.std.specs.Coded.{coded_ℕ};
    ghost use Rattle.pure_shared_maps.specs.View.{front_map, pairs_of, puts};

    ghost Value = { map.FinMap nat_cmp V };

    ghost coded = { map.code coded_ℕ V.code };

    ghost view = { λ m. puts (front_map m.front) (pairs_of m.rest.items) };
}

/// The value at a key of a front.
fn found_in_front<V>(front: &Option<Arc<BTreeMap<u32, Arc<V>>>>, key: u32) -> Option<&V>
    ensures { MatchOption result (map.get (front_map front.now) key ≡ None) (λ v. map.get (front_map front.now) key ≡ Some v.now) }
{
    match front {
        None => None,
        Some(front) => match front.get(&key) {
            None => None,
            Some(value) => Some(&**value),
        },
    }
}

/// The value of the last of these entries with the key.
fn last_found<V>(entries: &[Entry<V>], key: u32) -> Option<&V>
    ensures { (m : FinMap nat_cmp V) → MatchOption result (map.get (puts m (pairs_of entries.now)) key ≡ map.get m key) (λ v. map.get (puts m (pairs_of entries.now)) key ≡ Some v.now) }
{
    let mut found = None;
    for entry in entries {
        if entry.key == key {
            found = Some(&*entry.value);
        }
    }
    found
}

/// As many entries at most stand behind the front: behind a large one more, since each new front copies all of it.
fn most_behind<V>(front: &Option<Arc<BTreeMap<u32, Arc<V>>>>) -> usize {
    match front {
        None => FEW,
        Some(front) => FEW.max(front.len() / PART),
    }
}

/// A pointer to the same front.
fn shared_front<V: Drop>(
    front: &Option<Arc<BTreeMap<u32, Arc<V>>>>,
) -> Result<Option<Arc<BTreeMap<u32, Arc<V>>>>, AllocError>
    ensures { IfOk result (λ same. front_map same ≡ front_map front.now) }
{
    match front {
        None => Ok(None),
        Some(front) => {
            let same = Arc::try_clone(front)?;
            Ok(Some(same))
        }
    }
}

/// A map with what a front has.
fn copied_front<V: Drop>(
    alloc: Global,
    front: &Option<Arc<BTreeMap<u32, Arc<V>>>>,
) -> Result<BTreeMap<u32, Arc<V>>, AllocError>
    ensures { IfOk result (λ copy. map_of copy ≡ front_map front.now) }
{
    match front {
        None => Ok(BTreeMap::new(alloc)),
        Some(front) => {
            let copy = (**front).clone()?;
            Ok(copy)
        }
    }
}

/// Entries with the same keys and values.
fn shared_entries<V: Drop>(alloc: Global, entries: &[Entry<V>]) -> Result<Vec<Entry<V>>, AllocError>
    ensures { IfOk result (λ copies. pairs_of copies.items ≡ pairs_of entries.now) }
{
    let mut copies = Vec::with_capacity(alloc, entries.len())?;
    for entry in entries {
        copies.push(shared_entry(entry)?)?;
    }
    Ok(copies)
}

/// Puts in an entry.
fn put_entry<V: Drop>(all: &mut BTreeMap<u32, Arc<V>>, entry: &Entry<V>) -> Result<(), AllocError>
    ensures { OnOk result (map_of all.new ≡ map.insert (map_of all.old) entry.now.key entry.now.value.value) }
{
    let value = Arc::try_clone(&entry.value)?;
    all.insert(entry.key, value)?;
    Ok(())
}

/// Puts in entries, one after the other.
fn put_entries<V: Drop>(
    all: &mut BTreeMap<u32, Arc<V>>,
    entries: &[Entry<V>],
) -> Result<(), AllocError>
    ensures { OnOk result (map_of all.new ≡ puts (map_of all.old) (pairs_of entries.now)) }
{
    for entry in entries {
        put_entry(all, entry)?;
    }
    Ok(())
}

/// The front, or a new one, if there is none.
fn own_front<V: Drop>(
    alloc: Global,
    front: Option<Arc<BTreeMap<u32, Arc<V>>>>,
) -> Result<Arc<BTreeMap<u32, Arc<V>>>, AllocError>
    ensures { IfOk result (λ own. map_of own.value ≡ front_map front) }
{
    match front {
        None => {
            let own = Arc::new(alloc, BTreeMap::new(alloc))?;
            Ok(own)
        }
        Some(front) => Ok(front),
    }
}

/// The front with these entries put in: in place, where no other map shares it.
fn folded<V: Drop>(
    alloc: Global,
    front: Option<Arc<BTreeMap<u32, Arc<V>>>>,
    entries: &[Entry<V>],
) -> Result<Arc<BTreeMap<u32, Arc<V>>>, AllocError>
    ensures { IfOk result (λ all. map_of all.value ≡ puts (front_map front) (pairs_of entries.now)) }
{
    let mut own = own_front(alloc, front)?;
    let all = Arc::make_mut(&mut own)?;
    put_entries(all, entries)?;
    Ok(own)
}

impl<V: Drop> GrownMap<V> {
    /// The map without a pair.
    pub fn empty(alloc: Global) -> GrownMap<V>
        ensures { result ≡ map.empty }
    {
        GrownMap {
            front: None,
            rest: Vec::new(alloc),
        }
    }

    /// The same map, which shares all values.
    pub fn share(&self, alloc: Global) -> Result<GrownMap<V>, AllocError>
        ensures { IfOk result (λ same. same ≡ self.now) }
    {
        let front = shared_front(&self.front)?;
        let rest = shared_entries(alloc, self.rest.as_slice())?;
        Ok(GrownMap { front, rest })
    }

    /// The value at a key.
    pub fn get(&self, key: u32) -> Option<&V>
        ensures { MatchOption result (map.get self.now key ≡ None) (λ v. map.get self.now key ≡ Some v.now) }
    {
        if let Some(value) = last_found(self.rest.as_slice(), key) {
            return Some(value);
        }
        found_in_front(&self.front, key)
    }

    /// Makes a front of all entries, and of these.
    fn fold(&mut self, alloc: Global, entries: &[Entry<V>]) -> Result<(), AllocError>
        ensures ok { OnOk result (self.new ≡ puts self.old (pairs_of entries.now)) }
        ensures err { OnErr result (self.new ≡ self.old) }
    {
        let mut all = copied_front(alloc, &self.front)?;
        put_entries(&mut all, self.rest.as_slice())?;
        put_entries(&mut all, entries)?;
        let all = Arc::new(alloc, all)?;
        self.front = Some(all);
        self.rest.clear();
        Ok(())
    }

    /// Puts in entries, one after the other.
    pub fn put_all(&mut self, alloc: Global, entries: Vec<Entry<V>>) -> Result<(), AllocError>
        ensures ok { OnOk result (self.new ≡ puts self.old (pairs_of entries.items)) }
        ensures err { OnErr result (self.new ≡ self.old) }
    {
        let mut entries = entries;
        let most = most_behind(&self.front);
        if self.rest.len() + entries.len() > most {
            self.fold(alloc, entries.as_slice())?;
        } else {
            self.rest.append(&mut entries)?;
        }
        Ok(())
    }

    /// The map with a value put in, also where the key has one.
    pub fn with(self, alloc: Global, key: u32, value: Arc<V>) -> Result<GrownMap<V>, AllocError>
        ensures { IfOk result (λ more. more ≡ map.insert self key value.value) }
    {
        let GrownMap {
            mut front,
            mut rest,
        } = self;
        if rest.len() >= most_behind(&front) {
            front = Some(folded(alloc, front, rest.as_slice())?);
            rest.clear();
        }
        rest.push(Entry { key, value })?;
        Ok(GrownMap { front, rest })
    }

    /// Puts in a value, also where the key has one.
    pub fn put(&mut self, alloc: Global, key: u32, value: Arc<V>) -> Result<(), AllocError>
        ensures ok { OnOk result (self.new ≡ map.insert self.old key value.value) }
        ensures err { OnErr result (self.new ≡ self.old) }
    {
        let mut entries = Vec::new(alloc);
        entries.push(Entry { key, value })?;
        self.put_all(alloc, entries)?;
        Ok(())
    }
}
