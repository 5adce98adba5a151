//! What is asked of an order, and its answers as texts: `@c` whether c is declared; `+c` the classes above c; `cd<e`
//! whether a sort is below another; `=cd` a sort reduced; `.Kc` the greatest domains of K for c, each with a `/` behind
//! it, and `#Kc` those of K's arity for c itself; `KI:cd` whether a type is of a sort.
use crate::sorts::{class, constructor, sort};
use crate::types::typ;
use pure_order::{Order, OrderFault};
use pure_rows::Fault;
use pure_typ::{Name, Sort};
use std::alloc::{AllocError, Global};

/// The answer to a question of yes or no.
fn yes_or_no(alloc: Global, answer: bool) -> Result<Vec<u8>, AllocError> {
    if answer {
        Vec::from_slice(alloc, b"yes")
    } else {
        Vec::from_slice(alloc, b"no")
    }
}

/// The letter of a name.
fn letter(name: Name) -> u8 {
    u8::try_from(name.0).unwrap_or(b'#')
}

/// The letters of names.
fn letters(alloc: Global, names: &[Name]) -> Result<Vec<u8>, AllocError> {
    let mut text = Vec::new(alloc);
    for name in names {
        text.push(letter(*name))?;
    }
    Ok(text)
}

/// A refusal: `?g` for an unknown class, `twice`, and `!Kcd` for a conflict of K's arities for c and d.
pub(crate) fn refusal(alloc: Global, fault: OrderFault) -> Result<Vec<u8>, AllocError> {
    match fault {
        OrderFault::UnknownClass { class } => Ok(vec![in alloc; b'?', letter(class)]?),
        OrderFault::Duplicate => Vec::from_slice(alloc, b"twice"),
        OrderFault::NotCoregular { con, c1, c2 } => {
            Ok(vec![in alloc; b'!', letter(con), letter(c1), letter(c2)]?)
        }
        OrderFault::Memory => Err(AllocError),
    }
}

/// Domains, each with a stroke behind it.
fn strokes(alloc: Global, domains: &[Sort]) -> Result<Vec<u8>, AllocError> {
    let mut text = Vec::new(alloc);
    for domain in domains {
        for class in domain.classes() {
            text.push(letter(*class))?;
        }
        text.push(b'/')?;
    }
    Ok(text)
}

/// The domains, if there are any.
fn domains(alloc: Global, found: Option<&[Sort]>) -> Result<Vec<u8>, AllocError> {
    match found {
        Some(domains) => strokes(alloc, domains),
        None => Vec::from_slice(alloc, b"none"),
    }
}

/// The classes above this one.
fn above(alloc: Global, order: &Order, class: Name) -> Result<Vec<u8>, AllocError> {
    match order.above(class) {
        Some(names) => letters(alloc, names),
        None => Vec::from_slice(alloc, b"none"),
    }
}

/// Whether the first sort is below the second; where each has one class, the call on classes answers the same.
fn is_below(order: &Order, first: &Sort, second: &Sort) -> bool {
    let below = order.sort_below(first, second);
    match (first.classes(), second.classes()) {
        ([lower], [upper]) => below && order.below(*lower, *upper),
        _ => below,
    }
}

/// Whether the sort of the first text is below that of the second.
fn compared(alloc: Global, order: &Order, first: &[u8], second: &[u8]) -> Result<Vec<u8>, Fault> {
    let first = sort(alloc, first)?;
    let second = sort(alloc, second)?;
    Ok(yes_or_no(alloc, is_below(order, &first, &second))?)
}

/// Whether the type is of the sort.
fn typed(alloc: Global, order: &Order, text: &[u8], of: &[u8]) -> Result<Vec<u8>, Fault> {
    let of = sort(alloc, of)?;
    let typ = typ(alloc, text)?;
    Ok(yes_or_no(alloc, order.of_sort(&typ, &of))?)
}

/// The reduced sort.
fn reduced(alloc: Global, order: &Order, text: &[u8]) -> Result<Vec<u8>, Fault> {
    let sort = sort(alloc, text)?;
    let reduced = order.reduce(alloc, &sort)?;
    Ok(letters(alloc, reduced.classes())?)
}

/// The parts of the text before and behind the first such mark.
fn cut(text: &[u8], mark: u8) -> Option<(&[u8], &[u8])> {
    let at = text.iter().position(|byte| *byte == mark)?;
    Some((&text[..at], &text[at + 1..]))
}

/// The answer to a question that has its mark between two parts.
fn related(alloc: Global, order: &Order, asked: &[u8]) -> Result<Vec<u8>, Fault> {
    if let Some((first, second)) = cut(asked, b'<') {
        return compared(alloc, order, first, second);
    }
    match cut(asked, b':') {
        Some((text, of)) => typed(alloc, order, text, of),
        None => Err(Fault::Unreadable),
    }
}

/// The answer to the question; nothing to none.
pub(crate) fn answer(alloc: Global, order: &Order, asked: &[u8]) -> Result<Vec<u8>, Fault> {
    match asked {
        [] => Ok(Vec::new(alloc)),
        [b'@', letter] => Ok(yes_or_no(alloc, order.is_declared(class(*letter)?))?),
        [b'+', letter] => Ok(above(alloc, order, class(*letter)?)?),
        [b'=', letters @ ..] => reduced(alloc, order, letters),
        [b'.', con, letter] => {
            let found = order.domains(constructor(*con)?, class(*letter)?);
            Ok(domains(alloc, found)?)
        }
        [b'#', con, letter] => {
            let found = order.arity(constructor(*con)?, class(*letter)?);
            Ok(domains(alloc, found)?)
        }
        _ => related(alloc, order, asked),
    }
}
