//! The line that is written of the text of a record.
ghost use Rattle.std.specs.Prelude.{◌≡◌, ◌≢◌, ◌<◌, ◌++◌, false, true, length, take, ◌≤◌, List, ℕ, IfOk, OnOk};
ghost use Rattle.std.specs.Fmt.{decimal};
ghost use Rattle.pure_grammar.specs.Tokens.Spelling.{Spells, AreSlices};
ghost use Rattle.pure_grammar.specs.declared.token.Token.{Token};
ghost use Rattle.pure_record.specs.Seen.{seen_items, seen_lines};
ghost use Rattle.pure_record.specs.Spelled.{SpellsRecord};
ghost use Rattle.pure_record.specs.declared.record.RecordFault.TheVariants as reading;
ghost use Rattle.pure_replay.specs.Said as spec;
ghost use Rattle.pure_replay.specs.Said.{IsSaid};
ghost use Rattle.pure_replay.specs.declared.fault.ReplayFault.TheVariants as variant;

use crate::fault::ReplayFault;
use crate::replayed::replay;
use pure_grammar::Token;
use pure_lex::{LexFault, line_col, tokens};
use pure_print::print_term;
use pure_record::{Record, RecordFault, read_record};
use pure_term::Text;
use std::alloc::{AllocError, Global};

/// The line that is written, and whether it is a yes.
#[derive(Drop)]
pub struct Said {
    pub text: Text,
    pub is_yes: bool,
}

/// Words, and a number.
fn numbered(alloc: Global, words: &[u8], number: u32) -> Result<Vec<u8>, AllocError>
    ensures { IfOk result (λ text. text.items ≡ words.now ++ decimal number) }
{
    let mut text = Vec::from_slice(alloc, words)?;
    text.extend_from_slice(number.to_string(alloc)?.as_bytes())?;
    Ok(text)
}

/// The least of a place and the source's length.
fn place_within(source: &[u8], at: u32) -> u32
    requires { length source.now < 4294967295 }
    ensures within { result ≤ length source.now }
    ensures same { take result source.now ≡ take at source.now }
{
    if (at as usize) < source.len() {
        at
    } else {
        source.len() as u32
    }
}

/// Words, and the line and the column of a place of the source.
fn placed(alloc: Global, words: &[u8], source: &[u8], at: u32) -> Result<Vec<u8>, AllocError>
    requires { length source.now < 4294967295 }
    ensures { IfOk result (λ text. text.items ≡ spec.placed words.now source.now at) }
{
    let (line, column) = line_col(source, place_within(source, at));
    let mut text = Vec::from_slice(alloc, words)?;
    text.extend_from_slice(line.to_string(alloc)?.as_bytes())?;
    text.extend_from_slice(b":")?;
    text.extend_from_slice(column.to_string(alloc)?.as_bytes())?;
    Ok(text)
}

/// That no record goes on at a place of the source, or no token begins there.
#[tactic(auto, unfolding(crate::specs::Said::syntax_words))]
fn syntax_fault(alloc: Global, source: &[u8], at: u32) -> Result<Vec<u8>, AllocError>
    requires { length source.now < 4294967295 }
    ensures { IfOk result (λ text. text.items ≡ spec.placed spec.syntax_words source.now at) }
{
    placed(alloc, b"syntax at ", source, at)
}

/// The line of a no.
#[tactic(auto, unfolding(crate::specs::Said::no_words))]
pub fn no_line(alloc: Global, why: &[u8]) -> Result<Said, AllocError>
    ensures text { IfOk result (λ s. s.text ≡ spec.no_line why.now) }
    ensures no { IfOk result (λ s. s.is_yes ≡ false) }
{
    let mut text = Vec::from_slice(alloc, b"no: ")?;
    text.extend_from_slice(why)?;
    text.extend_from_slice(b"\n")?;
    Ok(Said {
        text: Text::from(text),
        is_yes: false,
    })
}

/// The line of a yes.
#[tactic(auto, unfolding(crate::specs::Said::yes_words))]
fn yes_line(alloc: Global, prop: &[u8]) -> Result<Said, AllocError>
    ensures text { IfOk result (λ s. s.text ≡ spec.yes_line prop.now) }
    ensures yes { IfOk result (λ s. s.is_yes ≡ true) }
{
    let mut text = Vec::from_slice(alloc, b"yes: ")?;
    text.extend_from_slice(prop)?;
    text.extend_from_slice(b"\n")?;
    Ok(Said {
        text: Text::from(text),
        is_yes: true,
    })
}

/// Why the tokens of a source spell no record.
#[tactic(auto, unfolding(crate::specs::Said::too_long_words))]
fn reading_words(alloc: Global, source: &[u8], fault: RecordFault) -> Result<Vec<u8>, AllocError>
    requires { length source.now < 4294967295 }
    ensures words { IfOk result (λ text. text.items ≡ spec.reading_words source.now fault) }
    ensures fault { OnOk result (fault ≢ reading.Memory) }
{
    match fault {
        RecordFault::TooLong { at } => placed(alloc, b"too long at ", source, at),
        RecordFault::Syntax { at } => syntax_fault(alloc, source, at),
        RecordFault::Memory => Err(AllocError),
    }
}

/// Why a record isn't replayed.
#[tactic(auto, unfolding(crate::specs::Said::content_words, crate::specs::Said::line_words, crate::specs::Said::big_words, crate::specs::Said::empty_words, crate::specs::Said::open_words))]
fn replay_words(alloc: Global, fault: ReplayFault) -> Result<Vec<u8>, AllocError>
    ensures words { IfOk result (λ text. text.items ≡ spec.replay_words fault) }
    ensures fault { OnOk result (fault ≢ variant.Memory) }
{
    match fault {
        ReplayFault::Content { item } => numbered(alloc, b"content ", item),
        ReplayFault::Line { line } => numbered(alloc, b"line ", line),
        ReplayFault::Big { line } => numbered(alloc, b"big ", line),
        ReplayFault::Empty => Vec::from_slice(alloc, b"empty"),
        ReplayFault::Open => Vec::from_slice(alloc, b"open"),
        ReplayFault::Memory => Err(AllocError),
    }
}

/// What is said of a record that a source spells.
fn of_record(alloc: Global, rec: &Record) -> Result<Said, AllocError>
    ensures { IfOk result (λ s. (source : List ℕ) (tokens : List Token) → Spells (length source) tokens source
        → SpellsRecord source tokens rec.now.names (seen_items rec.now.items.items) (seen_lines rec.now.lines.items) → IsSaid source s.text s.is_yes) }
{
    match replay(alloc, rec) {
        Ok(prop) => {
            let text = print_term(alloc, &rec.names, &prop)?;
            let said = yes_line(alloc, text.bytes())?;
            Ok(said)
        }
        Err(fault) => {
            let words = replay_words(alloc, fault)?;
            let said = no_line(alloc, &words)?;
            Ok(said)
        }
    }
}

/// What is said of a source that has these tokens.
fn of_tokens(alloc: Global, source: &[u8], tokens: &[Token]) -> Result<Said, AllocError>
    requires small { length source.now < 4294967295 }
    requires slices { AreSlices source.now 0 (length source.now) tokens.now }
    requires spelled { Spells (length source.now) tokens.now source.now }
    ensures { IfOk result (λ s. IsSaid source.now s.text s.is_yes) }
{
    match read_record(alloc, source, tokens) {
        Ok(rec) => of_record(alloc, &rec),
        Err(fault) => {
            let words = reading_words(alloc, source, fault)?;
            let said = no_line(alloc, &words)?;
            Ok(said)
        }
    }
}

/// What is said of the text of a record: `yes: PROP` where it is replayed, and else `no: ` and why. Want of memory alone is free.
pub fn said_of(alloc: Global, source: &[u8]) -> Result<Said, AllocError>
    requires { length source.now < 4294967295 }
    ensures { IfOk result (λ s. IsSaid source.now s.text s.is_yes) }
{
    match tokens(alloc, source, 0, source.len() as u32) {
        Ok(found) => of_tokens(alloc, source, &found),
        Err(LexFault::At { at }) => {
            let words = syntax_fault(alloc, source, at)?;
            let said = no_line(alloc, &words)?;
            Ok(said)
        }
        Err(LexFault::Memory) => Err(AllocError),
    }
}
