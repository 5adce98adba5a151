//! Terms.
use crate::fault::NotationFault;
use crate::names::{argument_count, name};
use crate::types::{base, functions, pop as pop_typ};
use crate::words::{cut, number, repetition};
use pure_term::{Term, TermNode};
use pure_typ::Typ;
use std::alloc::{AllocError, Global};
use std::sync::Arc;

/// The bound variable with this number.
fn bound(place: u32) -> Term {
    Term {
        node: TermNode::Bound { place },
    }
}

/// An abstraction over the type.
fn abstraction(alloc: Global, typ: Typ, body: Term) -> Result<Term, AllocError> {
    let body = Arc::new(alloc, body)?;
    Ok(Term::abs(typ, body))
}

/// An application.
fn application(alloc: Global, function: Term, argument: Term) -> Result<Term, AllocError> {
    let fun = Arc::new(alloc, function)?;
    let arg = Arc::new(alloc, argument)?;
    Ok(Term::app(fun, arg))
}

/// The term under so many abstractions over the type.
fn under(alloc: Global, typ: &Typ, body: Term, times: u32) -> Result<Term, AllocError> {
    let mut term = body;
    for _ in 0..times {
        term = abstraction(alloc, typ.copy(alloc)?, term)?;
    }
    Ok(term)
}

/// The function applied to the term so often.
fn applied(alloc: Global, function: &Term, argument: Term, times: u32) -> Result<Term, AllocError> {
    let mut term = argument;
    for _ in 0..times {
        term = application(alloc, function.copy(alloc)?, term)?;
    }
    Ok(term)
}

/// The function applied to the term twice, and to what that gives, so often.
fn doubled(alloc: Global, function: &Term, argument: Term, times: u32) -> Result<Term, AllocError> {
    let mut term = argument;
    for _ in 0..times {
        let first = application(alloc, function.copy(alloc)?, term.copy(alloc)?)?;
        term = application(alloc, first, term)?;
    }
    Ok(term)
}

/// The type that the table gives the name.
fn typ_of_name(alloc: Global, text: &[u8]) -> Result<Typ, NotationFault> {
    let base = base(alloc, b"i")?;
    let range = base.copy(alloc)?;
    Ok(functions(alloc, argument_count(text), &base, range)?)
}

/// The type of a constant or variable: the last of the types where the word has a colon, and else the table's.
fn typ_of_leaf(
    alloc: Global,
    typs: &mut Vec<Typ>,
    is_given: bool,
    text: &[u8],
) -> Result<Typ, NotationFault> {
    if is_given {
        pop_typ(typs)
    } else {
        typ_of_name(alloc, text)
    }
}

/// The last of the terms that were read.
pub(crate) fn pop(terms: &mut Vec<Term>) -> Result<Term, NotationFault> {
    Ok(terms.pop().ok_or(NotationFault::TooFewTerms)?)
}

/// The function applied to the term, or to it twice, so often.
fn repeated(
    alloc: Global,
    function: &Term,
    argument: Term,
    twice: bool,
    times: u32,
) -> Result<Term, AllocError> {
    if twice {
        doubled(alloc, function, argument, times)
    } else {
        applied(alloc, function, argument, times)
    }
}

/// The abstraction of the last of the terms, as often as the word says.
fn abstracted(
    alloc: Global,
    typs: &mut Vec<Typ>,
    terms: &mut Vec<Term>,
    word: &[u8],
) -> Result<Term, NotationFault> {
    let (operator, times) = cut(word, b'*');
    let typ = typ_of_leaf(alloc, typs, operator.len() == 2, b"i")?;
    let body = pop(terms)?;
    Ok(under(alloc, &typ, body, repetition(times))?)
}

/// The application of the last of the terms to the one before, or to it twice, as often as the word says.
fn application_of_word(
    alloc: Global,
    terms: &mut Vec<Term>,
    word: &[u8],
) -> Result<Term, NotationFault> {
    let (operator, times) = cut(word, b'*');
    let function = pop(terms)?;
    let argument = pop(terms)?;
    let twice = operator.len() == 2;
    Ok(repeated(alloc, &function, argument, twice, repetition(times))?)
}

/// The constant, the fixed or the schematic variable of the word behind its mark.
fn leaf(alloc: Global, typs: &mut Vec<Typ>, mark: u8, word: &[u8]) -> Result<Term, NotationFault> {
    let (variable, _) = cut(word, b':');
    let (text, index) = cut(variable, b'^');
    let name = name(text)?;
    let typ = typ_of_leaf(alloc, typs, word.ends_with(b":"), text)?;
    let index = number(index);
    let node = match mark {
        b'=' => TermNode::Const { name, typ },
        b'-' => TermNode::Free { name, typ },
        _ => TermNode::Var { name, index, typ },
    };
    Ok(Term { node })
}

/// The term that the word makes of the types and terms that were read.
pub(crate) fn term_of_word(
    alloc: Global,
    typs: &mut Vec<Typ>,
    terms: &mut Vec<Term>,
    word: &[u8],
) -> Result<Term, NotationFault> {
    let Some((mark, rest)) = word.split_first() else {
        return Err(NotationFault::NoWord);
    };
    match *mark {
        b'%' => abstracted(alloc, typs, terms, word),
        b'@' => application_of_word(alloc, terms, word),
        b'_' => Ok(bound(number(rest))),
        mark => leaf(alloc, typs, mark, rest),
    }
}
