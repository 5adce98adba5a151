//! Lists of texts in little memory.
ghost use Rattle.std.specs.Prelude.{◌≡◌, ◌↔◌, ◌⊎◌, ◌++◌, ◌∷◌, ◌<◌, ◌≤◌, [], ℕ, List, IfOk, OnOk, Some, drop, length, slice_get, slice_range, true};
ghost use Rattle.std.specs.List.Sorted.{IsStrictlySortedBy};
ghost use Rattle.std.specs.Ordering.{nat_cmp};
ghost use Rattle.std.specs.Cmp.Lexicographic.{slice_cmp};
ghost use Rattle.std.specs.Set.{sorted_merge};
ghost use Rattle.pure_text.specs.Lists.{IsIn};
ghost use Rattle.pure_text.specs.TextLists.{beginning};

use std::alloc::{AllocError, Global};
use std::cmp::Ordering;
use std::marker::Model;

/// A list of texts, which contracts see as such. Their bytes stand one behind the other, so that a short text takes four bytes beside its own.
#[derive(Debug, Drop)]
pub struct TextList {
    bytes: Vec<u8>,
    ends: Vec<u32>,
}

/// Where the text at this place begins, among texts that end so.
fn beginning_at(ends: &[u32], place: usize) -> usize
    requires { place < length ends.now }
    ensures { result ≡ beginning 0 ends.now place }
{
    if place == 0 {
        0
    } else {
        ends[place - 1] as usize
    }
}

/// Where the text at this place ends, among texts that end so.
fn end_at(ends: &[u32], place: usize) -> usize
    requires { place < length ends.now }
    ensures { slice_get ends.now place ≡ Some result }
{
    ends[place] as usize
}

/// The bytes between two places.
fn between(bytes: &[u8], from: usize, to: usize) -> &[u8]
    requires rises { from ≤ to }
    requires within { to ≤ length bytes.now }
    ensures { result.now ≡ slice_range bytes.now from to }
{
    &bytes[from..to]
}

impl Model for TextList {
    ghost use Rattle.std.specs.Prelude.{List, ℕ, length};
    ghost use Rattle.pure_text.specs.TextLists.{pieces, AreEnds};

    ghost Value = { List (List ℕ) };

    ghost view = { λ l. pieces l.bytes.items 0 l.ends.items };

    ghost invariant = { λ l. AreEnds (length l.bytes.items) 0 l.ends.items };
}

impl TextList {
    /// No texts.
    pub fn empty(alloc: Global) -> TextList
        ensures { result ≡ [] }
    {
        TextList {
            bytes: Vec::new(alloc),
            ends: Vec::new(alloc),
        }
    }

    /// The count of texts.
    pub fn len(&self) -> usize
        ensures { result ≡ length self.now }
    {
        self.ends.as_slice().len()
    }

    /// The text at the place, from 0.
    pub fn at(&self, place: usize) -> &[u8]
        requires { place < length self.now }
        ensures { slice_get self.now place ≡ Some result.now }
    {
        let from = beginning_at(self.ends.as_slice(), place);
        let to = end_at(self.ends.as_slice(), place);
        between(self.bytes.as_slice(), from, to)
    }

    /// Puts a text behind the others. Bytes beyond 2 ^ 32, which no source has, are want of memory.
    pub fn push(&mut self, text: &[u8]) -> Result<(), AllocError>
        ensures { OnOk result (self.new ≡ self.old ++ text.now ∷ []) }
    {
        let Ok(end) = u32::try_from(self.bytes.as_slice().len() + text.len()) else {
            return Err(AllocError);
        };
        self.ends.reserve(1)?;
        self.bytes.extend_from_slice(text)?;
        let _ = self.ends.push(end);
        Ok(())
    }

    /// An equal list.
    pub fn copy(&self, alloc: Global) -> Result<TextList, AllocError>
        ensures { IfOk result (λ list. list ≡ self.now) }
    {
        let bytes = Vec::from_slice(alloc, self.bytes.as_slice())?;
        let ends = Vec::from_slice(alloc, self.ends.as_slice())?;
        Ok(TextList { bytes, ends })
    }

    /// The texts of two lists that ascend, each once, ascending.
    pub fn union(&self, alloc: Global, other: &TextList) -> Result<TextList, AllocError>
        requires own { IsStrictlySortedBy (slice_cmp nat_cmp) self.now }
        requires others { IsStrictlySortedBy (slice_cmp nat_cmp) other.now }
        ensures ascend { IfOk result (λ all. IsStrictlySortedBy (slice_cmp nat_cmp) all) }
        ensures texts { IfOk result (λ all. (t : List ℕ) → IsIn t all ↔ (IsIn t self.now ⊎ IsIn t other.now)) }
    {
        let all = merged(alloc, self, other)?;
        Ok(all)
    }

    /// No texts, with room for those of two lists.
    fn with_room(alloc: Global, one: &TextList, other: &TextList) -> Result<TextList, AllocError>
        ensures { IfOk result (λ list. list ≡ []) }
    {
        let size = one.bytes.as_slice().len() + other.bytes.as_slice().len();
        let count = one.ends.as_slice().len() + other.ends.as_slice().len();
        let bytes = Vec::with_capacity(alloc, size)?;
        let ends = Vec::with_capacity(alloc, count)?;
        Ok(TextList { bytes, ends })
    }

    /// Puts the texts of another list, from this place on, behind the others.
    fn push_from(&mut self, other: &TextList, from: usize) -> Result<(), AllocError>
        ensures { OnOk result (self.new ≡ self.old ++ drop from other.now) }
    {
        for place in from..other.len() {
            self.push(other.at(place))?;
        }
        Ok(())
    }
}

/// Two lists, merged: of two texts in front the lesser one first, and of two equal ones one.
fn merged(alloc: Global, left: &TextList, right: &TextList) -> Result<TextList, AllocError>
    ensures { IfOk result (λ all. all ≡ sorted_merge (slice_cmp nat_cmp) true left.now right.now) }
{
    let mut all = TextList::with_room(alloc, left, right)?;
    let (mut i, mut j) = (0, 0);
    while i < left.len() && j < right.len() {
        let (first, second) = (left.at(i), right.at(j));
        match first.cmp(second) {
            Ordering::Less => {
                all.push(first)?;
                i += 1;
            }
            Ordering::Greater => {
                all.push(second)?;
                j += 1;
            }
            Ordering::Equal => {
                all.push(first)?;
                i += 1;
                j += 1;
            }
        }
    }
    all.push_from(left, i)?;
    all.push_from(right, j)?;
    Ok(all)
}
