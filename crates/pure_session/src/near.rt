//! Texts that are gathered, and are often the same ones.
ghost use Rattle.std.specs.Prelude.{◌≡◌, [], IfOk, OnOk, IsTrue};
ghost use Rattle.pure_text.specs.Lists.{IsIn};
ghost use Rattle.pure_session.specs.NameSets.{Gains};

use pure_text::TextList;
use std::alloc::{AllocError, Global};
use std::marker::Model;

/// Of how many texts it is noted where they stand.
const NOTES: usize = 512;

/// Texts, one behind the other. Of some it is noted where they stand, so that one that comes again mostly stays away.
#[derive(Drop)]
pub(crate) struct Texts {
    list: TextList,
    notes: Vec<usize>,
}

impl Model for Texts {
    ghost use Rattle.std.specs.Prelude.{List, ℕ};

    ghost Value = { List (List ℕ) };

    ghost view = { λ t. t.list };
}

/// Which note the text has.
fn note_for(text: &[u8]) -> usize {
    let mut sum: usize = 0;
    for byte in text {
        sum = sum.wrapping_mul(31).wrapping_add(usize::from(*byte));
    }
    sum % NOTES
}

/// Notes the place.
fn keep(notes: &mut Vec<usize>, note: usize, place: usize) {
    if note < notes.len() {
        notes[note] = place;
    }
}

/// Whether the text stands at the place.
fn is_at(list: &TextList, place: usize, text: &[u8]) -> bool
    ensures { IsTrue result → IsIn text.now list.now }
{
    if place >= list.len() {
        return false;
    }
    let own = list.at(place);
    own == text
}

impl Texts {
    /// No texts.
    pub(crate) fn empty(alloc: Global) -> Result<Texts, AllocError>
        ensures { IfOk result (λ texts. texts ≡ []) }
    {
        let notes = Vec::from_elem(alloc, 0, NOTES)?;
        Ok(Texts {
            list: TextList::empty(alloc),
            notes,
        })
    }

    /// The list itself.
    pub(crate) fn list(&self) -> &TextList
        ensures { result.now ≡ self.now }
    {
        &self.list
    }

    /// Whether the text stands where it is noted.
    fn is_near(&self, note: usize, text: &[u8]) -> bool
        ensures { IsTrue result → IsIn text.now self.now }
    {
        match self.notes.get(note) {
            Some(place) => is_at(&self.list, *place, text),
            None => false,
        }
    }

    /// Puts the text behind the others.
    pub(crate) fn append(&mut self, text: &[u8]) -> Result<(), AllocError>
        ensures { OnOk result (Gains self.old self.new (λ t. t ≡ text.now)) }
    {
        self.list.push(text)?;
        Ok(())
    }

    /// Puts the text behind the others, unless it is found among them at once.
    pub(crate) fn put(&mut self, text: &[u8]) -> Result<(), AllocError>
        ensures { OnOk result (Gains self.old self.new (λ t. t ≡ text.now)) }
    {
        let note = note_for(text);
        if self.is_near(note, text) {
            return Ok(());
        }
        keep(&mut self.notes, note, self.list.len());
        self.append(text)?;
        Ok(())
    }
}
