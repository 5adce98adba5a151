//! The record that tokens spell.
ghost use Rattle.std.specs.Prelude.{◌≡◌, ◌<◌, length, IfOk, IfErr, None};
ghost use Rattle.pure_grammar.specs.Theories.Outer.{place_of};
ghost use Rattle.pure_grammar.specs.Tokens.Spelling.{AreSlices};
ghost use Rattle.pure_record.specs.Grammar.{IsRecord};
ghost use Rattle.pure_record.specs.Left.{left};
ghost use Rattle.pure_record.specs.Seen.{seen_items, seen_lines};
ghost use Rattle.pure_record.specs.Spelled.{AreNamesOf, SpellsRecord, IsFaultOf, first_long, runs_of};

use crate::item::items;
use crate::lexeme::{Lexeme, Mark};
use crate::lexing::lexemes_of;
use crate::line::lines;
use crate::names::names_of;
use crate::reader::{Reader, expect};
use crate::recogniser::recognised;
use crate::record::{Item, Node, Record, RecordFault};
use crate::runs::long_run;
use pure_grammar::Token;
use pure_term::Names;
use std::alloc::{AllocError, Global};

/// The items and the lines of a record.
#[derive(Drop)]
struct Parts {
    items: Vec<Item>,
    lines: Vec<Node>,
}

/// Reads the parts of a record, from its beginning.
fn parts_of(reader: &mut Reader, alloc: Global) -> Result<Parts, AllocError>
    ensures { IfOk result (λ parts. IsRecord (seen_items parts.items.items) (seen_lines parts.lines.items) (left reader.old)) }
{
    expect(reader, Mark::Begin)?;
    let items = items(reader, alloc)?;
    let lines = lines(reader, alloc)?;
    Ok(Parts { items, lines })
}

/// The record with these names that the lexemes are.
fn built(alloc: Global, names: Names, lexemes: Vec<Lexeme>) -> Result<Record, AllocError>
    ensures names { IfOk result (λ read. read.names ≡ names) }
    ensures whole { IfOk result (λ read. IsRecord (seen_items read.items.items) (seen_lines read.lines.items) lexemes.items) }
{
    let mut reader = Reader { lexemes, at: 0 };
    let read = parts_of(&mut reader, alloc)?;
    Ok(Record {
        names,
        items: read.items,
        lines: read.lines,
    })
}

/// The place of the token of this number, or the source's length behind the last one.
fn place_at(source: &[u8], tokens: &[Token], at: usize) -> u32
    requires { length source.now < 4294967296 }
    ensures { result ≡ place_of tokens.now (length source.now) at }
{
    if at < tokens.len() {
        return tokens[at].from;
    }
    source.len() as u32
}

/// The record of the names that the tokens spell, or the number of the first lexeme with which no record goes on.
fn parsed(
    alloc: Global,
    source: &[u8],
    tokens: &[Token],
    names: Names,
) -> Result<Record, RecordFault>
    requires small { length source.now < 4294967296 }
    requires slices { AreSlices source.now 0 (length source.now) tokens.now }
    requires named { AreNamesOf source.now tokens.now names }
    requires runs { first_long (runs_of source.now tokens.now) ≡ None }
    ensures ok { IfOk result (λ read. SpellsRecord source.now tokens.now read.names (seen_items read.items.items) (seen_lines read.lines.items)) }
    ensures fault { IfErr result (IsFaultOf source.now tokens.now) }
{
    let lexemes = lexemes_of(alloc, &names, source, tokens)?;
    let found = recognised(alloc, lexemes.as_slice())?;
    match found {
        Some(at) => Err(RecordFault::Syntax {
            at: place_at(source, tokens, at),
        }),
        None => {
            let read = built(alloc, names, lexemes)?;
            Ok(read)
        }
    }
}

/// The record that the tokens of the source spell. TooLong exactly where more than 1,000 tokens stand in a row without a `|`, at the first token of the first such run; else Syntax exactly where the tokens spell no record, at the first token with which no record goes on, or at the source's end.
pub fn read_record(alloc: Global, source: &[u8], tokens: &[Token]) -> Result<Record, RecordFault>
    requires small { length source.now < 4294967296 }
    requires slices { AreSlices source.now 0 (length source.now) tokens.now }
    ensures ok { IfOk result (λ read. SpellsRecord source.now tokens.now read.names (seen_items read.items.items) (seen_lines read.lines.items)) }
    ensures fault { IfErr result (IsFaultOf source.now tokens.now) }
{
    match long_run(source, tokens) {
        Some(at) => Err(RecordFault::TooLong { at }),
        None => {
            let names = names_of(alloc, source, tokens)?;
            parsed(alloc, source, tokens, names)
        }
    }
}
