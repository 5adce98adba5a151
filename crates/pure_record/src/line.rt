//! The lines of a record.
ghost use Rattle.std.specs.Prelude.{◌≡◌, ◌∷◌, ◌++◌, List, [], IfOk, OnOk};
ghost use Rattle.pure_definitions.specs.Terms.Subst as maps;
ghost use Rattle.pure_definitions.specs.Terms.Subst.{term_variable};
ghost use Rattle.pure_record.specs.Grammar.{IsTyp, IsTerm, IsVariable, AreTypBinds, AreTermBinds, IsNode, AreLines};
ghost use Rattle.pure_record.specs.Left.{left, IsBehindWord};
ghost use Rattle.pure_record.specs.Seen.{seen_node, seen_lines};

use crate::lexeme::{Lexeme, Mark, Word};
use crate::reader::{ROOM, Reader, expect, identifier, is_at, less, number, take};
use crate::record::Node;
use crate::term::{term, variable};
use crate::typ::typ;
use pure_term::{Name, Sort, Term, TermBind, TermNode, TypBind};
use std::alloc::{AllocError, Global};

/// Reads an entry of the map of types, behind its variable.
fn typ_bind(
    reader: &mut Reader,
    alloc: Global,
    name: Name,
    index: u32,
) -> Result<TypBind, AllocError>
    ensures variable { IfOk result (λ e. (e.name ≡ name) × (e.index ≡ index) × (e.sort ≡ [])) }
    ensures image { IfOk result (λ e. IsTyp e.image (left reader.old) (Lexeme.Marked Mark.Semicolon ∷ left reader.new)) }
{
    let image = typ(reader, alloc, ROOM)?;
    expect(reader, Mark::Semicolon)?;
    let sort = Sort::empty();
    Ok(TypBind {
        name,
        index,
        sort,
        image,
    })
}

/// Reads the entries of a map of types, and the bracket behind them.
fn typ_binds(
    reader: &mut Reader,
    alloc: Global,
    room: u32,
    binds: &mut Vec<TypBind>,
) -> Result<(), AllocError>
    ensures { OnOk result ((es : List maps.TypBind) × (binds.new.items ≡ binds.old.items ++ es) × AreTypBinds es (left reader.old) (left reader.new)) }
{
    let inner = less(room)?;
    let found = take(reader)?;
    match found {
        Lexeme::Marked {
            mark: Mark::CloseBracket,
        } => Ok(()),
        Lexeme::SchematicType { name, index } => {
            let bind = typ_bind(reader, alloc, Name(name), index)?;
            binds.push(bind)?;
            typ_binds(reader, alloc, inner, binds)?;
            Ok(())
        }
        _ => Err(AllocError),
    }
}

/// An entry for the variable, if it is a schematic one.
fn bind_of(variable: Term, image: Term) -> Result<TermBind, AllocError>
    ensures { IfOk result (λ e. (term_variable e ≡ variable) × (e.image ≡ image)) }
{
    let Term { node } = variable;
    match node {
        TermNode::Var { name, index, typ } => Ok(TermBind {
            name,
            index,
            typ,
            image,
        }),
        _ => Err(AllocError),
    }
}

/// Reads an entry of the map of terms behind its brace.
fn term_bind(reader: &mut Reader, alloc: Global) -> Result<TermBind, AllocError>
    ensures { IfOk result (λ e. (a : List Lexeme) × IsTerm (term_variable e) (Lexeme.Marked Mark.OpenBrace ∷ left reader.old) a × IsTerm e.image a (Lexeme.Marked Mark.Semicolon ∷ left reader.new)) }
{
    let var = variable(reader, alloc)?;
    let image = term(reader, alloc, ROOM)?;
    expect(reader, Mark::Semicolon)?;
    let bind = bind_of(var, image)?;
    Ok(bind)
}

/// Reads the entries of a map of terms, and the bracket behind them.
fn term_binds(
    reader: &mut Reader,
    alloc: Global,
    room: u32,
    binds: &mut Vec<TermBind>,
) -> Result<(), AllocError>
    ensures { OnOk result ((es : List maps.TermBind) × (binds.new.items ≡ binds.old.items ++ es) × AreTermBinds es (left reader.old) (left reader.new)) }
{
    let inner = less(room)?;
    if !is_at(reader, Mark::OpenBrace) {
        expect(reader, Mark::CloseBracket)?;
        return Ok(());
    }
    expect(reader, Mark::OpenBrace)?;
    let bind = term_bind(reader, alloc)?;
    binds.push(bind)?;
    term_binds(reader, alloc, inner, binds)?;
    Ok(())
}

/// Reads an axiom with its maps, behind the word.
fn axiom(reader: &mut Reader, alloc: Global) -> Result<Node, AllocError>
    ensures { IfOk result (λ n. IsBehindWord Word.Axiom (seen_node n) (left reader.old) (left reader.new)) }
{
    let found = identifier(reader)?;
    let mut typs = Vec::new(alloc);
    let mut terms = Vec::new(alloc);
    expect(reader, Mark::OpenBracket)?;
    typ_binds(reader, alloc, ROOM, &mut typs)?;
    expect(reader, Mark::OpenBracket)?;
    term_binds(reader, alloc, ROOM, &mut terms)?;
    Ok(Node::Axiom {
        name: found.name,
        typs,
        terms,
    })
}

/// Reads an assumption behind its word.
fn assume(reader: &mut Reader, alloc: Global) -> Result<Node, AllocError>
    ensures { IfOk result (λ n. IsBehindWord Word.Assume (seen_node n) (left reader.old) (left reader.new)) }
{
    let prop = term(reader, alloc, ROOM)?;
    Ok(Node::Assume { prop })
}

/// Reads an introduction of a quantifier behind its word.
fn all_intro(reader: &mut Reader, alloc: Global) -> Result<Node, AllocError>
    ensures { IfOk result (λ n. IsBehindWord Word.AllIntro (seen_node n) (left reader.old) (left reader.new)) }
{
    expect(reader, Mark::OpenBrace)?;
    let var = variable(reader, alloc)?;
    let line = number(reader)?;
    Ok(Node::AllIntro { var, line })
}

/// Reads an elimination of a quantifier behind its word.
fn all_elim(reader: &mut Reader, alloc: Global) -> Result<Node, AllocError>
    ensures { IfOk result (λ n. IsBehindWord Word.AllElim (seen_node n) (left reader.old) (left reader.new)) }
{
    let read = term(reader, alloc, ROOM)?;
    let line = number(reader)?;
    Ok(Node::AllElim { term: read, line })
}

/// Reads an introduction of an implication behind its word.
fn imp_intro(reader: &mut Reader, alloc: Global) -> Result<Node, AllocError>
    ensures { IfOk result (λ n. IsBehindWord Word.ImpIntro (seen_node n) (left reader.old) (left reader.new)) }
{
    let prop = term(reader, alloc, ROOM)?;
    let line = number(reader)?;
    Ok(Node::ImpIntro { prop, line })
}

/// Reads an elimination of an implication behind its word.
fn imp_elim(reader: &mut Reader) -> Result<Node, AllocError>
    ensures { IfOk result (λ n. IsBehindWord Word.ImpElim (seen_node n) (left reader.old) (left reader.new)) }
{
    let imp = number(reader)?;
    let prem = number(reader)?;
    Ok(Node::ImpElim { imp, prem })
}

/// Reads a beta step behind its word.
fn beta(reader: &mut Reader, alloc: Global) -> Result<Node, AllocError>
    ensures { IfOk result (λ n. IsBehindWord Word.Beta (seen_node n) (left reader.old) (left reader.new)) }
{
    let read = term(reader, alloc, ROOM)?;
    Ok(Node::Beta { term: read })
}

/// Reads a reflexivity behind its word.
fn reflexivity(reader: &mut Reader, alloc: Global) -> Result<Node, AllocError>
    ensures { IfOk result (λ n. IsBehindWord Word.Refl (seen_node n) (left reader.old) (left reader.new)) }
{
    let read = term(reader, alloc, ROOM)?;
    Ok(Node::Refl { term: read })
}

/// Reads a substitution behind its word.
fn substitution(reader: &mut Reader, alloc: Global) -> Result<Node, AllocError>
    ensures { IfOk result (λ n. IsBehindWord Word.Subst (seen_node n) (left reader.old) (left reader.new)) }
{
    let p = term(reader, alloc, ROOM)?;
    let x = term(reader, alloc, ROOM)?;
    let y = term(reader, alloc, ROOM)?;
    Ok(Node::Subst { p, x, y })
}

/// Reads an extensionality behind its word.
fn extensionality(reader: &mut Reader, alloc: Global) -> Result<Node, AllocError>
    ensures { IfOk result (λ n. IsBehindWord Word.Ext (seen_node n) (left reader.old) (left reader.new)) }
{
    let f = term(reader, alloc, ROOM)?;
    let g = term(reader, alloc, ROOM)?;
    Ok(Node::Ext { f, g })
}

/// Reads an equality of propositions behind its word.
fn equivalence(reader: &mut Reader, alloc: Global) -> Result<Node, AllocError>
    ensures { IfOk result (λ n. IsBehindWord Word.Iff (seen_node n) (left reader.old) (left reader.new)) }
{
    let a = term(reader, alloc, ROOM)?;
    let b = term(reader, alloc, ROOM)?;
    Ok(Node::Iff { a, b })
}

/// Reads the rest of a line behind its word.
fn node_behind(reader: &mut Reader, alloc: Global, word: Word) -> Result<Node, AllocError>
    ensures { IfOk result (λ n. IsBehindWord word (seen_node n) (left reader.old) (left reader.new)) }
{
    match word {
        Word::Axiom => axiom(reader, alloc),
        Word::Assume => assume(reader, alloc),
        Word::AllIntro => all_intro(reader, alloc),
        Word::AllElim => all_elim(reader, alloc),
        Word::ImpIntro => imp_intro(reader, alloc),
        Word::ImpElim => imp_elim(reader),
        Word::Beta => beta(reader, alloc),
        Word::Refl => reflexivity(reader, alloc),
        Word::Subst => substitution(reader, alloc),
        Word::Ext => extensionality(reader, alloc),
        Word::Iff => equivalence(reader, alloc),
        _ => Err(AllocError),
    }
}

/// Reads a line and the bar behind it.
fn line(reader: &mut Reader, alloc: Global) -> Result<Node, AllocError>
    ensures { IfOk result (λ n. IsNode (seen_node n) (left reader.old) (Lexeme.Marked Mark.Bar ∷ left reader.new)) }
{
    let found = identifier(reader)?;
    let node = node_behind(reader, alloc, found.word)?;
    expect(reader, Mark::Bar)?;
    Ok(node)
}

/// Reads the end of a record.
fn end(reader: &mut Reader) -> Result<(), AllocError>
    ensures { OnOk result (left reader.old ≡ Lexeme.Marked Mark.End ∷ Lexeme.Marked Mark.SourceEnd ∷ []) }
{
    expect(reader, Mark::End)?;
    expect(reader, Mark::SourceEnd)?;
    if reader.at < reader.lexemes.len() {
        return Err(AllocError);
    }
    Ok(())
}

/// Reads the lines, and the end behind them.
pub(crate) fn lines(reader: &mut Reader, alloc: Global) -> Result<Vec<Node>, AllocError>
    ensures { IfOk result (λ list. AreLines (seen_lines list.items) (left reader.old)) }
{
    let mut list = Vec::new(alloc);
    for _ in 0..reader.lexemes.len() {
        if is_at(reader, Mark::End) {
            end(reader)?;
            return Ok(list);
        }
        let next = line(reader, alloc)?;
        list.push(next)?;
    }
    Err(AllocError)
}
