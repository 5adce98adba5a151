//! The terms of a record.
ghost use Rattle.std.specs.Prelude.{◌≡◌, ◌∷◌, ◌++◌, List, [], IfOk, OnOk};
ghost use Rattle.pure_definitions.specs.Terms.Term as tree;
ghost use Rattle.pure_record.specs.Grammar as spec;
ghost use Rattle.pure_record.specs.Grammar.{IsTyp, IsTerm, IsVariable};
ghost use Rattle.pure_record.specs.Left.{left};

use crate::lexeme::{Lexeme, Mark, Word};
use crate::reader::{ROOM, Reader, expect, identifier, is_at, less, take};
use crate::typ::typ;
use pure_term::{Name, Term, TermNode, Typ};
use std::alloc::{AllocError, Global};
use std::sync::Arc;

/// The name that an identifier is as a constant.
pub(crate) fn constant_name(name: Name, word: Word) -> Name
    ensures { result ≡ spec.constant_name name word }
{
    match word {
        Word::All => Name::ALL,
        Word::Imp => Name::IMP,
        Word::Eq => Name::EQ,
        Word::Protect => Name::PROTECT,
        _ => name,
    }
}

/// Reads a colon, a type and the bracket that closes.
fn typed(reader: &mut Reader, alloc: Global, close: Mark) -> Result<Typ, AllocError>
    ensures { IfOk result (λ T. (a : List Lexeme) × (left reader.old ≡ Lexeme.Marked Mark.Colon ∷ a) × IsTyp T a (Lexeme.Marked close ∷ left reader.new)) }
{
    expect(reader, Mark::Colon)?;
    let read = typ(reader, alloc, ROOM)?;
    expect(reader, close)?;
    Ok(read)
}

/// A constant.
fn constant_of(name: Name, typ: Typ) -> Term
    ensures { result ≡ tree.Const name typ }
{
    Term {
        node: TermNode::Const { name, typ },
    }
}

/// A fixed variable.
fn free(name: Name, typ: Typ) -> Term
    ensures { result ≡ tree.Free name typ }
{
    Term {
        node: TermNode::Free { name, typ },
    }
}

/// A schematic variable.
fn schematic(name: Name, index: u32, typ: Typ) -> Term
    ensures { result ≡ tree.Var name index typ }
{
    Term {
        node: TermNode::Var { name, index, typ },
    }
}

/// A bound variable.
fn bound(place: u32) -> Term
    ensures { result ≡ tree.Bound place }
{
    Term {
        node: TermNode::Bound { place },
    }
}

/// Reads a constant behind its bracket.
fn constant(reader: &mut Reader, alloc: Global) -> Result<Term, AllocError>
    ensures { IfOk result (λ t. IsTerm t (Lexeme.Marked Mark.OpenBracket ∷ left reader.old) (left reader.new)) }
{
    let found = identifier(reader)?;
    let typ = typed(reader, alloc, Mark::CloseBracket)?;
    Ok(constant_of(constant_name(found.name, found.word), typ))
}

/// Reads a variable behind its brace.
pub(crate) fn variable(reader: &mut Reader, alloc: Global) -> Result<Term, AllocError>
    ensures read { IfOk result (λ t. IsTerm t (Lexeme.Marked Mark.OpenBrace ∷ left reader.old) (left reader.new)) }
    ensures variable { IfOk result (λ t. IsVariable t) }
{
    let found = take(reader)?;
    match found {
        Lexeme::Identifier { name, .. } => {
            let typ = typed(reader, alloc, Mark::CloseBrace)?;
            Ok(free(Name(name), typ))
        }
        Lexeme::SchematicTerm { name, index } => {
            let typ = typed(reader, alloc, Mark::CloseBrace)?;
            Ok(schematic(Name(name), index, typ))
        }
        _ => Err(AllocError),
    }
}

/// Reads a term.
#[cycle(term)]
pub(crate) fn term(reader: &mut Reader, alloc: Global, room: u32) -> Result<Term, AllocError>
    ensures { IfOk result (λ t. IsTerm t (left reader.old) (left reader.new)) }
{
    let inner = less(room)?;
    let found = take(reader)?;
    match found {
        Lexeme::Bound { place } => Ok(bound(place)),
        Lexeme::Marked { mark } => {
            let t = bracketed(reader, alloc, inner, mark)?;
            Ok(t)
        }
        _ => Err(AllocError),
    }
}

/// Reads a term behind the mark with which it begins.
#[cycle(term)]
fn bracketed(reader: &mut Reader, alloc: Global, room: u32, mark: Mark) -> Result<Term, AllocError>
    ensures { IfOk result (λ t. IsTerm t (Lexeme.Marked mark ∷ left reader.old) (left reader.new)) }
{
    let inner = less(room)?;
    match mark {
        Mark::OpenBracket => constant(reader, alloc),
        Mark::OpenBrace => {
            let t = variable(reader, alloc)?;
            Ok(t)
        }
        Mark::OpenParenthesis => compound(reader, alloc, inner),
        _ => Err(AllocError),
    }
}

/// Reads an abstraction or an application behind its parenthesis.
#[cycle(term)]
fn compound(reader: &mut Reader, alloc: Global, room: u32) -> Result<Term, AllocError>
    ensures { IfOk result (λ t. IsTerm t (Lexeme.Marked Mark.OpenParenthesis ∷ left reader.old) (left reader.new)) }
{
    let inner = less(room)?;
    if is_at(reader, Mark::Percent) {
        return abstraction(reader, alloc, inner);
    }
    application(reader, alloc, inner)
}

/// Reads an abstraction behind its parenthesis.
#[cycle(term)]
fn abstraction(reader: &mut Reader, alloc: Global, room: u32) -> Result<Term, AllocError>
    ensures { IfOk result (λ t. IsTerm t (Lexeme.Marked Mark.OpenParenthesis ∷ left reader.old) (left reader.new)) }
{
    let inner = less(room)?;
    expect(reader, Mark::Percent)?;
    let domain = typ(reader, alloc, ROOM)?;
    expect(reader, Mark::Semicolon)?;
    let body = term(reader, alloc, inner)?;
    expect(reader, Mark::CloseParenthesis)?;
    let block = Arc::new(alloc, body)?;
    Ok(Term::abs(domain, block))
}

/// Reads an application behind its parenthesis.
#[cycle(term)]
fn application(reader: &mut Reader, alloc: Global, room: u32) -> Result<Term, AllocError>
    ensures { IfOk result (λ t. IsTerm t (Lexeme.Marked Mark.OpenParenthesis ∷ left reader.old) (left reader.new)) }
{
    let inner = less(room)?;
    let function = term(reader, alloc, inner)?;
    let fun = Arc::new(alloc, function)?;
    let argument = term(reader, alloc, inner)?;
    expect(reader, Mark::CloseParenthesis)?;
    let arg = Arc::new(alloc, argument)?;
    Ok(Term::app(fun, arg))
}
