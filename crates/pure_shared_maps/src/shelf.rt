//! Finite maps that share their parts.
ghost use Rattle.std.specs.Prelude.{◌≡◌, ◌<◌, ◌≤◌, ◌+◌, ◌^◌, IfOk, MatchOption, None, Some, length, slice_index};
ghost use Rattle.std.specs.Ordering.{nat_cmp};
ghost use Rattle.std.specs.FinMap as map;
ghost use Rattle.pure_shared_maps.specs.Powers.{powers_of};

use crate::entries::Entry;
use crate::runs::{found_in, grown, shared_runs};
use std::alloc::{AllocError, Global};
use std::marker::Model;
use std::sync::Arc;

/// A finite map from numbers, which contracts see as such. It is kept in runs, ordered by key, whose lengths are the powers of two that sum to
/// the count of pairs, the greatest first; a map that grows from this one shares the runs that it doesn't merge.
#[derive(Drop)]
pub struct Shelf<V> {
    alloc: Global,
    parts: Vec<Arc<Vec<Entry<V>>>>,
    pairs: u32,
}

impl<V> Model for Shelf<V> {
    ghost use Rattle.std.specs.Ordering.{nat_cmp};
    ghost use Rattle.std.specs.FinMap as map;
    ghost use Rattle.std.specs.Coded.{coded_ℕ};
    ghost use Rattle.pure_shared_maps.specs.Pairs.{joined};
    ghost use Rattle.pure_shared_maps.specs.Runs.{IsShelf};
    ghost use Rattle.pure_shared_maps.specs.View.{runs_of};

    ghost Value = { map.FinMap nat_cmp V };

    ghost coded = { map.code coded_ℕ V.code };

    ghost view = { λ s. map.from_entries (joined (runs_of s.parts.items)) };

    ghost invariant = { λ s. IsShelf (runs_of s.parts.items) s.pairs };
}

impl<V: Drop> Shelf<V> {
    /// The map without a pair.
    pub fn empty(alloc: Global) -> Shelf<V>
        ensures { result ≡ map.empty }
    {
        Shelf {
            alloc,
            parts: Vec::new(alloc),
            pairs: 0,
        }
    }

    /// The same map, which shares all runs.
    pub fn share(&self) -> Result<Shelf<V>, AllocError>
        ensures { IfOk result (λ same. same ≡ self.now) }
    {
        let parts = shared_runs(self.alloc, self.parts.as_slice())?;
        Ok(Shelf {
            alloc: self.alloc,
            parts,
            pairs: self.pairs,
        })
    }

    /// The pointer to the value at a key, which others may share.
    pub fn pointer(&self, key: u32) -> Option<&Arc<V>>
        ensures { MatchOption result (map.get self.now key ≡ None) (λ v. map.get self.now key ≡ Some v.now.value) }
    {
        found_in(self.parts.as_slice(), key)
    }

    /// The value at a key.
    pub fn get(&self, key: u32) -> Option<&V>
        ensures { MatchOption result (map.get self.now key ≡ None) (λ v. map.get self.now key ≡ Some v.now) }
    {
        match self.pointer(key) {
            None => None,
            Some(value) => Some(&**value),
        }
    }

    /// The map with one pair more.
    pub fn with(&self, key: u32, value: Arc<V>) -> Result<Shelf<V>, AllocError>
        requires fresh { map.get self.now key ≡ None }
        requires room { map.len self.now < 4294967295 }
        ensures { IfOk result (λ more. more ≡ map.insert self.now key value.value) }
    {
        let mut run = Vec::new(self.alloc);
        run.push(Entry { key, value })?;
        let parts = grown(self.alloc, self.parts.as_slice(), run)?;
        Ok(Shelf {
            alloc: self.alloc,
            parts,
            pairs: self.pairs + 1,
        })
    }

    /// The count of pairs.
    pub fn count(&self) -> u32
        ensures { result ≡ map.len self.now }
    {
        self.pairs
    }

    /// The count of runs.
    pub fn runs(&self) -> u32
        ensures lengths { result ≡ length (powers_of (map.len self.now)) }
        ensures few { 2 ^ result ≤ map.len self.now + 1 }
    {
        self.parts.len() as u32
    }

    /// The length of the run at a place.
    pub fn run_len(&self, place: u32) -> u32
        requires { place < length (powers_of (map.len self.now)) }
        ensures { result ≡ slice_index (powers_of (map.len self.now)) place }
    {
        let runs = self.parts.as_slice();
        let run = &*runs[place as usize];
        run.len() as u32
    }
}
