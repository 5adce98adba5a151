//! Types.
use crate::fault::NotationFault;
use crate::names::name;
use crate::words::{cut, number, repetition};
use pure_typ::{Name, Sort, Typ, TypNode};
use std::alloc::{AllocError, Global};

/// The constructor of this text without arguments.
pub(crate) fn base(alloc: Global, text: &[u8]) -> Result<Typ, NotationFault> {
    let name = name(text)?;
    Ok(Typ::constructed(alloc, name, Vec::new(alloc))?)
}

/// The type of functions that take so many arguments of one type and give the other.
pub(crate) fn functions(
    alloc: Global,
    count: u32,
    domain: &Typ,
    range: Typ,
) -> Result<Typ, AllocError> {
    let mut typ = range;
    for _ in 0..count {
        typ = Typ::arrow(alloc, domain.copy(alloc)?, typ)?;
    }
    Ok(typ)
}

/// The sort of the classes behind a colon, at most two.
fn sort(alloc: Global, classes: &[u8]) -> Result<Sort, NotationFault> {
    if classes.is_empty() {
        return Ok(Sort::empty());
    }
    let (first, second) = cut(classes, b':');
    let lower = name(first)?;
    if second.is_empty() {
        return Ok(Sort::make(alloc, vec![in alloc; lower]?)?);
    }
    let upper = name(second)?;
    if lower.0 >= upper.0 {
        return Err(NotationFault::ClassOrder);
    }
    Ok(Sort::make(alloc, vec![in alloc; lower, upper]?)?)
}

/// The fixed type variable of the word behind its mark.
fn fixed(alloc: Global, word: &[u8]) -> Result<Typ, NotationFault> {
    let (text, classes) = cut(word, b':');
    let name = name(text)?;
    let sort = sort(alloc, classes)?;
    Ok(Typ {
        node: TypNode::TFree { name, sort },
    })
}

/// The schematic type variable of the word.
fn schematic(alloc: Global, word: &[u8]) -> Result<Typ, NotationFault> {
    let (_, rest) = cut(word, b'\'');
    let (variable, classes) = cut(rest, b':');
    let (text, index) = cut(variable, b'^');
    let name = name(text)?;
    let index = number(index);
    let sort = sort(alloc, classes)?;
    Ok(Typ {
        node: TypNode::TVar { name, index, sort },
    })
}

/// The last of the types that were read.
pub(crate) fn pop(typs: &mut Vec<Typ>) -> Result<Typ, NotationFault> {
    Ok(typs.pop().ok_or(NotationFault::TooFewTypes)?)
}

/// So many of the types that were read.
fn pop_many(alloc: Global, typs: &mut Vec<Typ>, count: u32) -> Result<Vec<Typ>, NotationFault> {
    let mut args = Vec::new(alloc);
    for _ in 0..count {
        args.push(pop(typs)?)?;
    }
    Ok(args)
}

/// So many copies of the type.
fn copies(alloc: Global, typ: &Typ, count: u32) -> Result<Vec<Typ>, AllocError> {
    let mut args = Vec::new(alloc);
    for _ in 0..count {
        args.push(typ.copy(alloc)?)?;
    }
    Ok(args)
}

/// The constructor put round the type so often.
fn put_round(alloc: Global, name: Name, inside: Typ, times: u32) -> Result<Typ, AllocError> {
    let mut typ = inside;
    for _ in 0..times {
        let args = vec![in alloc; typ]?;
        typ = Typ::constructed(alloc, name, args)?;
    }
    Ok(typ)
}

/// The constructor put round the last of the types so often.
fn nested(
    alloc: Global,
    typs: &mut Vec<Typ>,
    text: &[u8],
    times: u32,
) -> Result<Typ, NotationFault> {
    let name = name(text)?;
    let inside = pop(typs)?;
    Ok(put_round(alloc, name, inside, times)?)
}

/// The arguments of a constructor: so many copies of the last of the types behind a second stroke, and else so many types.
fn arguments(alloc: Global, typs: &mut Vec<Typ>, count: &[u8]) -> Result<Vec<Typ>, NotationFault> {
    let (types, copied) = cut(count, b'/');
    if copied.is_empty() {
        return pop_many(alloc, typs, number(types));
    }
    let typ = pop(typs)?;
    Ok(copies(alloc, &typ, number(copied))?)
}

/// The constructor of the word, with its arguments from the types that were read.
fn constructed(alloc: Global, typs: &mut Vec<Typ>, word: &[u8]) -> Result<Typ, NotationFault> {
    let (repeated, times) = cut(word, b'*');
    if !times.is_empty() {
        return nested(alloc, typs, repeated, number(times));
    }
    let (text, count) = cut(word, b'/');
    let name = name(text)?;
    let args = arguments(alloc, typs, count)?;
    Ok(Typ::constructed(alloc, name, args)?)
}

/// The type of functions of the last two types, the domain taken as often as the word says.
fn arrow(alloc: Global, typs: &mut Vec<Typ>, word: &[u8]) -> Result<Typ, NotationFault> {
    let (_, times) = cut(word, b'*');
    let domain = pop(typs)?;
    let range = pop(typs)?;
    Ok(functions(alloc, repetition(times), &domain, range)?)
}

/// The type that the word makes of the types that were read.
pub(crate) fn typ_of_word(
    alloc: Global,
    typs: &mut Vec<Typ>,
    word: &[u8],
) -> Result<Typ, NotationFault> {
    match word.first() {
        Some(b'>') => arrow(alloc, typs, word),
        Some(b'\'') => fixed(alloc, &word[1..]),
        Some(b'?') => schematic(alloc, word),
        _ => constructed(alloc, typs, word),
    }
}
