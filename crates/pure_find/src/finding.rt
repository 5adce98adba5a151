//! What is found fact by fact: lines and standings, and the text that they come to.
ghost use Rattle.std.specs.Prelude.{◌≡◌, ◌++◌, ◌∷◌, [], IfOk, OnOk};
ghost use Rattle.std.specs.List.{count_by};
ghost use Rattle.pure_definitions.specs.Terms.Term as tree;
ghost use Rattle.pure_find.specs.Facts as facts;
ghost use Rattle.pure_find.specs.Findings.{IsFinding};
ghost use Rattle.pure_find.specs.Lines as spec;

use crate::standing::Standing;
use pure_print::push_number;
use pure_text::Text;
use std::alloc::{AllocError, Global};

/// The lines of some facts, and how each stands to the statement.
#[derive(Drop)]
pub(crate) struct Finding {
    pub(crate) text: Vec<u8>,
    pub(crate) standings: Vec<Standing>,
}

/// Adds a line of two texts.
fn push_line(text: &mut Vec<u8>, word: &[u8], name: &[u8]) -> Result<(), AllocError>
    ensures { OnOk result (text.new.items ≡ text.old.items ++ (word.now ++ (name.now ++ 10 ∷ []))) }
{
    text.extend_from_slice(word)?;
    text.extend_from_slice(name)?;
    text.push(b'\n')?;
    Ok(())
}

/// Adds the line of a fact.
#[tactic(auto, unfolding(crate::specs::Lines::match_text, crate::specs::Lines::maybe_text))]
fn push_fact(text: &mut Vec<u8>, standing: Standing, name: &[u8]) -> Result<(), AllocError>
    ensures { OnOk result (text.new.items ≡ text.old.items ++ spec.line_of standing name.now) }
{
    match standing {
        Standing::Match => push_line(text, b"match ", name),
        Standing::Maybe => push_line(text, b"maybe ", name),
        Standing::NoMatch => Ok(()),
    }
}

fn is_match(standing: Standing) -> bool
    ensures { result ≡ spec.is_match standing }
{
    match standing {
        Standing::Match => true,
        Standing::Maybe => false,
        Standing::NoMatch => false,
    }
}

fn is_maybe(standing: Standing) -> bool
    ensures { result ≡ spec.is_maybe standing }
{
    match standing {
        Standing::Match => false,
        Standing::Maybe => true,
        Standing::NoMatch => false,
    }
}

fn is_no_match(standing: Standing) -> bool
    ensures { result ≡ spec.is_no_match standing }
{
    match standing {
        Standing::Match => false,
        Standing::Maybe => false,
        Standing::NoMatch => true,
    }
}

/// How many facts match.
fn matches(standings: &[Standing]) -> usize
    ensures { result ≡ count_by spec.is_match standings.now }
{
    standings.iter().filter(|it| is_match(**it)).count()
}

/// How many may match.
fn maybes(standings: &[Standing]) -> usize
    ensures { result ≡ count_by spec.is_maybe standings.now }
{
    standings.iter().filter(|it| is_maybe(**it)).count()
}

/// How many don't match.
fn no_matches(standings: &[Standing]) -> usize
    ensures { result ≡ count_by spec.is_no_match standings.now }
{
    standings.iter().filter(|it| is_no_match(**it)).count()
}

/// Adds a number, and what there are so many of.
fn push_count(text: &mut Vec<u8>, number: usize, word: &[u8]) -> Result<(), AllocError>
    ensures { OnOk result (text.new.items ≡ text.old.items ++ spec.count_text number word.now) }
{
    push_number(text, number)?;
    text.extend_from_slice(word)?;
    Ok(())
}

/// Adds the last line.
#[tactic(auto, unfolding(crate::specs::Lines::total_text, crate::specs::Lines::matches_text, crate::specs::Lines::maybes_text, crate::specs::Lines::none_text))]
fn push_total(text: &mut Vec<u8>, standings: &[Standing]) -> Result<(), AllocError>
    ensures { OnOk result (text.new.items ≡ text.old.items ++ spec.total_line standings.now) }
{
    text.extend_from_slice(b"total: ")?;
    push_count(text, matches(standings), b" match, ")?;
    push_count(text, maybes(standings), b" maybe, ")?;
    push_count(text, no_matches(standings), b" none")?;
    text.push(b'\n')?;
    Ok(())
}

impl Finding {
    /// Nothing is found.
    pub(crate) fn empty(alloc: Global) -> Finding
        ensures { (C : tree.Term) → IsFinding C [] result }
    {
        Finding {
            text: Vec::new(alloc),
            standings: Vec::new(alloc),
        }
    }

    /// Adds a fact, by its full name.
    pub(crate) fn put(&mut self, name: &[u8], standing: Standing) -> Result<(), AllocError>
        ensures text { OnOk result (self.new.text.items ≡ self.old.text.items ++ spec.line_of standing name.now) }
        ensures standings { OnOk result (self.new.standings.items ≡ self.old.standings.items ++ standing ∷ []) }
    {
        push_fact(&mut self.text, standing, name)?;
        self.standings.push(standing)?;
        Ok(())
    }

    /// Whether some fact matches.
    pub(crate) fn is_clean(&self) -> bool
        ensures { result ≡ spec.is_clean self.now.standings.items }
    {
        matches(&self.standings) > 0
    }

    /// The whole text.
    pub(crate) fn finish(self) -> Result<Text, AllocError>
        ensures { IfOk result (λ text. text ≡ self.text.items ++ spec.total_line self.standings.items) }
    {
        let Finding {
            mut text,
            standings,
        } = self;
        push_total(&mut text, &standings)?;
        Ok(Text::from(text))
    }
}
