//! The lines of a record as they are printed.
ghost use Rattle.std.specs.Prelude.{◌≡◌, ◌++◌, OnOk, codes};
ghost use Rattle.std.specs.Fmt.{decimal};
ghost use Rattle.pure_definitions.specs.Terms.Subst.{term_variable};
ghost use Rattle.pure_record.specs.Lines as line;
ghost use Rattle.pure_record.specs.Seen.{seen_node, seen_lines};
ghost use Rattle.pure_record_print.specs.Printed as spec;
ghost use Rattle.pure_record_print.specs.Printed.{spaced};

use crate::name::{push_name, push_numeral, push_variable};
use crate::term::push_term;
use crate::typ::{push_typ, push_typed};
use pure_record::Node;
use pure_term::{Name, Names, Term, TermBind, TypBind};
use std::alloc::AllocError;

/// Appends the entries of a map of types.
fn push_typ_binds(text: &mut Vec<u8>, names: &Names, binds: &[TypBind]) -> Result<(), AllocError>
    ensures { OnOk result (text.new.items ≡ text.old.items ++ spec.typ_binds_text names.now binds.now) }
{
    for bind in binds {
        text.extend_from_slice(b"?'")?;
        push_variable(text, names, bind.name, bind.index)?;
        push_typ(text, names, &bind.image)?;
        text.extend_from_slice(b"; ")?;
    }
    text.extend_from_slice(b"] ")?;
    Ok(())
}

/// Appends an entry of a map of terms.
fn push_term_bind(text: &mut Vec<u8>, names: &Names, bind: &TermBind) -> Result<(), AllocError>
    ensures { OnOk result (text.new.items ≡ text.old.items ++ (spec.term_text names.now (term_variable bind.now) ++ (spec.term_text names.now bind.now.image ++ codes "; "))) }
{
    text.extend_from_slice(b"{ ?")?;
    push_variable(text, names, bind.name, bind.index)?;
    push_typed(text, names, &bind.typ, b"} ")?;
    push_term(text, names, &bind.image)?;
    text.extend_from_slice(b"; ")?;
    Ok(())
}

/// Appends the entries of a map of terms.
fn push_term_binds(text: &mut Vec<u8>, names: &Names, binds: &[TermBind]) -> Result<(), AllocError>
    ensures { OnOk result (text.new.items ≡ text.old.items ++ spec.term_binds_text names.now binds.now) }
{
    for bind in binds {
        push_term_bind(text, names, bind)?;
    }
    text.extend_from_slice(b"] ")?;
    Ok(())
}

/// Appends an axiom with its maps.
fn push_axiom(
    text: &mut Vec<u8>,
    names: &Names,
    name: Name,
    typs: &[TypBind],
    terms: &[TermBind],
) -> Result<(), AllocError>
    ensures { OnOk result (text.new.items ≡ text.old.items ++ spec.node_text names.now (line.Axiom name typs.now terms.now)) }
{
    text.extend_from_slice(b"axiom ")?;
    push_name(text, names, name)?;
    text.extend_from_slice(b"[ ")?;
    push_typ_binds(text, names, typs)?;
    text.extend_from_slice(b"[ ")?;
    push_term_binds(text, names, terms)?;
    Ok(())
}

/// Appends a word and a term.
fn push_one(text: &mut Vec<u8>, names: &Names, word: &[u8], t: &Term) -> Result<(), AllocError>
    ensures { OnOk result (text.new.items ≡ text.old.items ++ (word.now ++ spec.term_text names.now t.now)) }
{
    text.extend_from_slice(word)?;
    push_term(text, names, t)?;
    Ok(())
}

/// Appends a word, a term and the number of a line.
fn push_numbered(
    text: &mut Vec<u8>,
    names: &Names,
    word: &[u8],
    t: &Term,
    number: u32,
) -> Result<(), AllocError>
    ensures { OnOk result (text.new.items ≡ text.old.items ++ (word.now ++ (spec.term_text names.now t.now ++ spaced (decimal number)))) }
{
    text.extend_from_slice(word)?;
    push_term(text, names, t)?;
    push_numeral(text, number)?;
    Ok(())
}

/// Appends a word and two terms.
fn push_two(
    text: &mut Vec<u8>,
    names: &Names,
    word: &[u8],
    t: &Term,
    u: &Term,
) -> Result<(), AllocError>
    ensures { OnOk result (text.new.items ≡ text.old.items ++ (word.now ++ (spec.term_text names.now t.now ++ spec.term_text names.now u.now))) }
{
    text.extend_from_slice(word)?;
    push_term(text, names, t)?;
    push_term(text, names, u)?;
    Ok(())
}

/// Appends a substitution.
fn push_substitution(
    text: &mut Vec<u8>,
    names: &Names,
    p: &Term,
    x: &Term,
    y: &Term,
) -> Result<(), AllocError>
    ensures { OnOk result (text.new.items ≡ text.old.items ++ spec.node_text names.now (line.Subst p.now x.now y.now)) }
{
    text.extend_from_slice(b"subst ")?;
    push_term(text, names, p)?;
    push_term(text, names, x)?;
    push_term(text, names, y)?;
    Ok(())
}

/// Appends an elimination of an implication.
fn push_elimination(text: &mut Vec<u8>, imp: u32, prem: u32) -> Result<(), AllocError>
    ensures { OnOk result (text.new.items ≡ text.old.items ++ (codes "impe " ++ (spaced (decimal imp) ++ spaced (decimal prem)))) }
{
    text.extend_from_slice(b"impe ")?;
    push_numeral(text, imp)?;
    push_numeral(text, prem)?;
    Ok(())
}

/// Appends a line.
fn push_node(text: &mut Vec<u8>, names: &Names, node: &Node) -> Result<(), AllocError>
    ensures { OnOk result (text.new.items ≡ text.old.items ++ spec.node_text names.now (seen_node node.now)) }
{
    match node {
        Node::Axiom { name, typs, terms } => {
            push_axiom(text, names, *name, typs.as_slice(), terms.as_slice())
        }
        Node::Assume { prop } => push_one(text, names, b"assume ", prop),
        Node::AllIntro { var, line } => push_numbered(text, names, b"alli ", var, *line),
        Node::AllElim { term, line } => push_numbered(text, names, b"alle ", term, *line),
        Node::ImpIntro { prop, line } => push_numbered(text, names, b"impi ", prop, *line),
        Node::ImpElim { imp, prem } => push_elimination(text, *imp, *prem),
        Node::Beta { term } => push_one(text, names, b"beta ", term),
        Node::Refl { term } => push_one(text, names, b"refl ", term),
        Node::Subst { p, x, y } => push_substitution(text, names, p, x, y),
        Node::Ext { f, g } => push_two(text, names, b"ext ", f, g),
        Node::Iff { a, b } => push_two(text, names, b"iff ", a, b),
    }
}

/// Appends the lines.
pub(crate) fn push_lines(
    text: &mut Vec<u8>,
    names: &Names,
    lines: &[Node],
) -> Result<(), AllocError>
    ensures { OnOk result (text.new.items ≡ text.old.items ++ spec.lines_text names.now (seen_lines lines.now)) }
{
    for node in lines {
        push_node(text, names, node)?;
        text.extend_from_slice(b"|\n")?;
    }
    Ok(())
}
