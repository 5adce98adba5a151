//! The items of a record.
ghost use Rattle.std.specs.Prelude.{◌≡◌, ◌∷◌, List, IfOk};
ghost use Rattle.pure_record.specs.Grammar.{IsItem, AreItems, AreLines};
ghost use Rattle.pure_record.specs.Left.{left};
ghost use Rattle.pure_record.specs.Lines as tree;
ghost use Rattle.pure_record.specs.Seen.{seen_item, seen_items};

use crate::lexeme::{Lexeme, Mark};
use crate::reader::{ROOM, Reader, expect, identifier, is_at, number, take};
use crate::record::Item;
use crate::term::{constant_name, term};
use crate::typ::{typ, typ_name};
use std::alloc::{AllocError, Global};

/// Reads the declaration of a type, behind its word.
fn type_declaration(reader: &mut Reader) -> Result<Item, AllocError>
    ensures { IfOk result (λ i. IsItem (seen_item i) (Lexeme.Marked Mark.Typedecl ∷ left reader.old) (left reader.new)) }
{
    let found = identifier(reader)?;
    let params = number(reader)?;
    Ok(Item::TypeDecl {
        name: typ_name(found.name, found.word),
        params,
    })
}

/// Reads the declaration of a constant, behind its word.
fn constant_declaration(reader: &mut Reader, alloc: Global) -> Result<Item, AllocError>
    ensures { IfOk result (λ i. IsItem (seen_item i) (Lexeme.Marked Mark.Consts ∷ left reader.old) (left reader.new)) }
{
    let found = identifier(reader)?;
    expect(reader, Mark::DoubleColon)?;
    let read = typ(reader, alloc, ROOM)?;
    Ok(Item::Const {
        name: constant_name(found.name, found.word),
        typ: read,
    })
}

/// Reads an axiom, behind the word.
fn axiom_declaration(reader: &mut Reader, alloc: Global) -> Result<Item, AllocError>
    ensures { IfOk result (λ i. IsItem (seen_item i) (Lexeme.Marked Mark.Axiomatization ∷ left reader.old) (left reader.new)) }
{
    let found = identifier(reader)?;
    expect(reader, Mark::Colon)?;
    let prop = term(reader, alloc, ROOM)?;
    Ok(Item::Axiom {
        name: found.name,
        prop,
    })
}

/// Reads an item behind its word.
fn item_behind(reader: &mut Reader, alloc: Global, mark: Mark) -> Result<Item, AllocError>
    ensures { IfOk result (λ i. IsItem (seen_item i) (Lexeme.Marked mark ∷ left reader.old) (left reader.new)) }
{
    match mark {
        Mark::Typedecl => type_declaration(reader),
        Mark::Consts => constant_declaration(reader, alloc),
        Mark::Axiomatization => axiom_declaration(reader, alloc),
        _ => Err(AllocError),
    }
}

/// Takes a mark, whichever it is.
fn any_mark(reader: &mut Reader) -> Result<Mark, AllocError>
    ensures { IfOk result (λ mark. left reader.old ≡ Lexeme.Marked mark ∷ left reader.new) }
{
    let found = take(reader)?;
    match found {
        Lexeme::Marked { mark } => Ok(mark),
        _ => Err(AllocError),
    }
}

/// Reads an item and the bar behind it.
fn item(reader: &mut Reader, alloc: Global) -> Result<Item, AllocError>
    ensures { IfOk result (λ i. IsItem (seen_item i) (left reader.old) (Lexeme.Marked Mark.Bar ∷ left reader.new)) }
{
    let mark = any_mark(reader)?;
    let read = item_behind(reader, alloc, mark)?;
    expect(reader, Mark::Bar)?;
    Ok(read)
}

/// Whether an item comes next.
fn is_at_item(reader: &Reader) -> bool {
    is_at(reader, Mark::Typedecl)
        || is_at(reader, Mark::Consts)
        || is_at(reader, Mark::Axiomatization)
}

/// Reads the items.
pub(crate) fn items(reader: &mut Reader, alloc: Global) -> Result<Vec<Item>, AllocError>
    ensures { IfOk result (λ list. (lines : List tree.Node) → AreLines lines (left reader.new) → AreItems (seen_items list.items) lines (left reader.old)) }
{
    let mut list = Vec::new(alloc);
    for _ in 0..reader.lexemes.len() {
        if !is_at_item(reader) {
            return Ok(list);
        }
        let next = item(reader, alloc)?;
        list.push(next)?;
    }
    Err(AllocError)
}
