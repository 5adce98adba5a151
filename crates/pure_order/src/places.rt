//! Sets of places of arities.
ghost use Rattle.std.specs.Prelude.{◌≡◌, ◌↔◌, ◌⊎◌, ◌<◌, ◌≤◌, ℕ, IsTrue};
ghost use Rattle.pure_order_tables.specs.Rows.{Holds};

use std::marker::Model;

/// A set holds places below this one.
pub const MOST_PLACES: usize = 8192;

/// A set of places of arities. Its bits stand in the frame: it takes no memory from the heap.
#[derive(Drop)]
pub struct Places {
    words: [u64; 128],
    start: usize,
    end: usize,
}

impl Model for Places {
    ghost use Rattle.std.specs.Prelude.{List, ℕ};
    ghost use Rattle.pure_order.specs.Places.{IsPlaces};

    ghost Value = { List ℕ };

    ghost view = { λ s. s.words };

    ghost invariant = { λ s. IsPlaces s.words s.start s.end };
}

impl Places {
    /// No place.
    pub fn empty() -> Places
        ensures { (place : ℕ) → ¬ Holds result place }
    {
        Places {
            words: [0; 128],
            start: MOST_PLACES,
            end: 0,
        }
    }

    /// Whether the set holds the place.
    pub fn contains(&self, place: usize) -> bool
        ensures { IsTrue result ↔ Holds self.now place }
    {
        place < MOST_PLACES && (self.words[place / 64] >> (place % 64)) & 1 == 1
    }

    /// Where the places start: each is there or behind it.
    pub fn start(&self) -> usize
        ensures { (place : ℕ) → Holds self.now place → result ≤ place }
    {
        self.start
    }

    /// Where the places end: each is before it.
    pub fn end(&self) -> usize
        ensures { (place : ℕ) → Holds self.now place → place < result }
    {
        self.end
    }

    /// Puts the place into the set.
    pub fn insert(&mut self, place: usize)
        requires { place < 8192 }
        ensures { (other : ℕ) → Holds self.new other ↔ ((other ≡ place) ⊎ Holds self.old other) }
    {
        self.words[place / 64] |= 1 << (place % 64);
        self.start = self.start.min(place);
        self.end = self.end.max(place + 1);
    }
}
