//! Large terms by numbers, so that terms that were found equal aren't walked again.
ghost use Rattle.std.specs.Prelude.{◌≡◌, [], ◌∷◌, ◌++◌, IsTrue, IfOk, OnOk};
ghost use Rattle.pure_definitions.specs.Terms.Term as tree;
ghost use Rattle.pure_logic.specs.Connectives.{imp};
ghost use Rattle.pure_replay.specs.Known.{IsNumber, HaveGrown, HaveMore, HaveOneNumber};

use pure_term::{Term, size};
use pure_theorem::{are_same, as_implication};
use std::alloc::{AllocError, Global};
use std::collections::BTreeMap;

/// Terms that are smaller have no numbers: they are compared as they stand.
const SMALL: u32 = 64;

/// So many terms have numbers at most.
const MOST: usize = 4_000_000;

/// The numbers of a proposition and, where it is an implication, of its premise.
#[derive(Clone, Copy)]
pub(crate) struct Numbers {
    pub(crate) prop: Option<u32>,
    pub(crate) premise: Option<u32>,
}

/// Large terms by their numbers, their numbers by the terms, and the numbers of each line. Where two equal terms had two numbers, that would cost time alone.
#[derive(Drop)]
pub(crate) struct Known {
    pub(crate) terms: Vec<Term>,
    places: BTreeMap<Term, u32>,
    pub(crate) lines: Vec<Numbers>,
}

/// Puts the term behind the others.
fn push_term(alloc: Global, terms: &mut Vec<Term>, t: &Term) -> Result<(), AllocError>
    ensures { OnOk result (terms.new.items ≡ terms.old.items ++ t.now ∷ []) }
{
    terms.push(t.copy(alloc)?)?;
    Ok(())
}

impl Known {
    /// No terms and no lines.
    pub(crate) fn empty(alloc: Global) -> Known
        ensures terms { result.terms.items ≡ [] }
        ensures lines { result.lines.items ≡ [] }
    {
        Known {
            terms: Vec::new(alloc),
            places: BTreeMap::new(alloc),
            lines: Vec::new(alloc),
        }
    }

    /// The number, if it is that of the term.
    fn checked(&self, number: u32, t: &Term) -> Option<u32>
        ensures { IsNumber self.now.terms.items t.now result }
    {
        let Some(own) = self.terms.get(number as usize) else {
            return None;
        };
        if !are_same(own, t) {
            return None;
        }
        Some(number)
    }

    /// The term's number, if it is found.
    fn found(&self, t: &Term) -> Option<u32>
        ensures { IsNumber self.now.terms.items t.now result }
    {
        match self.places.get(t) {
            None => None,
            Some(number) => self.checked(*number, t),
        }
    }

    /// A new number for the term.
    #[tactic(auto, using(crate::proofs::KnownLaws::grown_not))]
    fn add(&mut self, alloc: Global, t: &Term) -> Result<Option<u32>, AllocError>
        ensures number { IfOk result (IsNumber self.new.terms.items t.now) }
        ensures grown { OnOk result (HaveGrown self.old.terms.items self.new.terms.items) }
        ensures lines { self.new.lines ≡ self.old.lines }
    {
        let known = self.terms.as_slice();
        let count = known.len();
        if count >= MOST {
            return Ok(None);
        }
        let number = count as u32;
        self.places.insert(t.copy(alloc)?, number)?;
        push_term(alloc, &mut self.terms, t)?;
        Ok(Some(number))
    }

    /// The term's number, or a new one; none where it is small.
    #[tactic(auto, using(crate::proofs::KnownLaws::grown_not))]
    fn number_of(&mut self, alloc: Global, t: &Term) -> Result<Option<u32>, AllocError>
        ensures number { IfOk result (IsNumber self.new.terms.items t.now) }
        ensures grown { OnOk result (HaveGrown self.old.terms.items self.new.terms.items) }
        ensures lines { self.new.lines ≡ self.old.lines }
    {
        if size(t) < SMALL {
            return Ok(None);
        }
        match self.found(t) {
            Some(number) => Ok(Some(number)),
            None => self.add(alloc, t),
        }
    }

    /// The number of the premise, where the proposition is an implication.
    #[tactic(auto, using(crate::proofs::KnownLaws::grown_not))]
    fn number_of_premise(&mut self, alloc: Global, prop: &Term) -> Result<Option<u32>, AllocError>
        ensures number { IfOk result (λ n. (B C : tree.Term) → prop.now ≡ imp B C → IsNumber self.new.terms.items B n) }
        ensures grown { OnOk result (HaveGrown self.old.terms.items self.new.terms.items) }
        ensures lines { self.new.lines ≡ self.old.lines }
    {
        match as_implication(prop) {
            None => Ok(None),
            Some((premise, _)) => self.number_of(alloc, premise),
        }
    }

    /// Adds a line, of which this is the proposition.
    pub(crate) fn add_line(&mut self, alloc: Global, prop: &Term) -> Result<(), AllocError>
        ensures { OnOk result (HaveMore self.old.terms.items self.old.lines.items self.new.terms.items self.new.lines.items prop.now) }
    {
        let own = self.number_of(alloc, prop)?;
        let premise = self.number_of_premise(alloc, prop)?;
        self.lines.push(Numbers { prop: own, premise })?;
        Ok(())
    }

    /// Whether the premise of the one line and the proposition of the other have one number.
    pub(crate) fn are_same(&self, implication: u32, premise: u32) -> bool
        ensures { IsTrue result → HaveOneNumber self.now.lines.items implication premise }
    {
        let Some(first) = self.lines.get(implication as usize) else {
            return false;
        };
        let Some(second) = self.lines.get(premise as usize) else {
            return false;
        };
        match (first.premise, second.prop) {
            (Some(left), Some(right)) => left == right,
            _ => false,
        }
    }
}
