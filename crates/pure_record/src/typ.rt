//! The types of a record.
ghost use Rattle.std.specs.Prelude.{◌≡◌, ◌∷◌, ◌++◌, List, [], IfOk, OnOk};
ghost use Rattle.pure_definitions.specs.Types.Typ as tree;
ghost use Rattle.pure_definitions.specs.Types.Typ.{typs_of};
ghost use Rattle.pure_record.specs.Grammar as spec;
ghost use Rattle.pure_record.specs.Grammar.{IsTyp, AreArguments, AreMoreArguments};
ghost use Rattle.pure_record.specs.Left.{left};
ghost use Rattle.pure_record.specs.declared.lexeme.Lexeme.{Lexeme};

use crate::lexeme::{Lexeme, Mark, Word};
use crate::reader::{Reader, expect, is_at, less, take};
use pure_term::{Name, Sort, Typ, TypNode};
use std::alloc::{AllocError, Global};

/// The name that an identifier is as a type.
pub(crate) fn typ_name(name: Name, word: Word) -> Name
    ensures { result ≡ spec.typ_name name word }
{
    match word {
        Word::Fun => Name::FUN,
        Word::Prop => Name::PROP,
        _ => name,
    }
}

/// A fixed type variable.
fn fixed(name: Name) -> Typ
    ensures { result ≡ tree.TFree name [] }
{
    let sort = Sort::empty();
    Typ {
        node: TypNode::TFree { name, sort },
    }
}

/// A schematic type variable.
fn schematic(name: Name, index: u32) -> Typ
    ensures { result ≡ tree.TVar name index [] }
{
    let sort = Sort::empty();
    Typ {
        node: TypNode::TVar { name, index, sort },
    }
}

/// Reads a type.
#[cycle(typ)]
pub(crate) fn typ(reader: &mut Reader, alloc: Global, room: u32) -> Result<Typ, AllocError>
    ensures { IfOk result (λ t. IsTyp t (left reader.old) (left reader.new)) }
{
    let inner = less(room)?;
    let found = take(reader)?;
    match found {
        Lexeme::TypeVariable { name } => Ok(fixed(Name(name))),
        Lexeme::SchematicType { name, index } => Ok(schematic(Name(name), index)),
        Lexeme::Identifier { name, word } => {
            let args = arguments(reader, alloc, inner)?;
            let t = Typ::constructed(alloc, typ_name(Name(name), word), args)?;
            Ok(t)
        }
        _ => Err(AllocError),
    }
}

/// Reads what a constructor is applied to.
#[cycle(typ)]
fn arguments(reader: &mut Reader, alloc: Global, room: u32) -> Result<Vec<Typ>, AllocError>
    ensures { IfOk result (λ args. AreArguments (typs_of args.items) (left reader.old) (left reader.new)) }
{
    if !is_at(reader, Mark::OpenParenthesis) {
        return Ok(Vec::new(alloc));
    }
    let args = some_arguments(reader, alloc, room)?;
    Ok(args)
}

/// Reads arguments in parentheses.
#[cycle(typ)]
fn some_arguments(reader: &mut Reader, alloc: Global, room: u32) -> Result<Vec<Typ>, AllocError>
    ensures { IfOk result (λ args. AreArguments (typs_of args.items) (left reader.old) (left reader.new)) }
{
    let inner = less(room)?;
    expect(reader, Mark::OpenParenthesis)?;
    let first = typ(reader, alloc, inner)?;
    let mut args = Vec::new(alloc);
    args.push(first)?;
    more_arguments(reader, alloc, inner, &mut args)?;
    Ok(args)
}

/// Reads more arguments, and the parenthesis behind them.
#[cycle(typ)]
fn more_arguments(
    reader: &mut Reader,
    alloc: Global,
    room: u32,
    args: &mut Vec<Typ>,
) -> Result<(), AllocError>
    ensures { OnOk result ((ts : List tree.Typ) × (args.new.items ≡ args.old.items ++ ts) × AreMoreArguments (typs_of ts) (left reader.old) (left reader.new)) }
{
    let inner = less(room)?;
    if !is_at(reader, Mark::Comma) {
        expect(reader, Mark::CloseParenthesis)?;
        return Ok(());
    }
    expect(reader, Mark::Comma)?;
    let next = typ(reader, alloc, inner)?;
    args.push(next)?;
    more_arguments(reader, alloc, inner, args)?;
    Ok(())
}
