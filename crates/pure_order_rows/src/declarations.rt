//! Declarations, with a blank between two: `e<cd` is the class e with c and d above it, `I:=c` the arity of I for c
//! without domains, and `P:cd/e/=c` that of P for c with the domains {c, d} and {e}.
use crate::sorts::{class, classes, constructor, sort};
use pure_order::{Order, OrderFault};
use pure_rows::Fault;
use pure_typ::{Name, Sort};
use std::alloc::Global;
use std::mem;

/// A declaration.
#[derive(Drop)]
enum Declaration {
    Class {
        class: Name,
        above: Vec<Name>,
    },
    Arity {
        con: Name,
        domains: Vec<Sort>,
        class: Name,
    },
}

/// The text, in which `-` stands for nothing.
pub(crate) fn written(field: &[u8]) -> &[u8] {
    if field == b"-".as_slice() { b"" } else { field }
}

/// The domains in the text, with a stroke behind each.
fn domains(alloc: Global, text: &[u8]) -> Result<Vec<Sort>, Fault> {
    let mut domains = Vec::new(alloc);
    let mut start = 0;
    for (end, byte) in text.iter().enumerate() {
        if *byte == b'/' {
            domains.push(sort(alloc, text.get(start..end).unwrap_or(b""))?)?;
            start = end + 1;
        }
    }
    if start == text.len() {
        Ok(domains)
    } else {
        Err(Fault::Unreadable)
    }
}

/// The arity of the constructor with the domains and the class in the text.
fn arity(alloc: Global, con: Name, text: &[u8]) -> Result<Declaration, Fault> {
    match text {
        [given @ .., b'=', letter] => Ok(Declaration::Arity {
            con,
            domains: domains(alloc, given)?,
            class: class(*letter)?,
        }),
        _ => Err(Fault::Unreadable),
    }
}

/// The declaration in the text.
fn read_declaration(alloc: Global, text: &[u8]) -> Result<Declaration, Fault> {
    match text {
        [letter, b'<', above @ ..] => Ok(Declaration::Class {
            class: class(*letter)?,
            above: classes(alloc, above)?,
        }),
        [letter, b':', rest @ ..] => arity(alloc, constructor(*letter)?, rest),
        _ => Err(Fault::Unreadable),
    }
}

/// Adds what is declared to the order.
fn add(alloc: Global, order: &mut Order, declared: Declaration) -> Result<(), OrderFault> {
    match declared {
        Declaration::Class { class, above } => order.add_class(alloc, class, &above),
        Declaration::Arity {
            con,
            domains,
            class,
        } => order.add_arity(alloc, con, domains, class),
    }
}

/// Makes the declarations in the text up to the first that is refused, and gives that refusal.
pub(crate) fn declare(
    alloc: Global,
    order: &mut Order,
    text: &[u8],
) -> Result<Option<OrderFault>, Fault> {
    for word in text.split(|byte| *byte == b' ') {
        if !word.is_empty() {
            let declaration = read_declaration(alloc, word)?;
            if let Err(fault) = add(alloc, order, declaration) {
                return Ok(Some(fault));
            }
        }
    }
    Ok(None)
}

/// Why nothing comes of a row whose order is refused.
fn refused(fault: OrderFault) -> Fault {
    match fault {
        OrderFault::Memory => Fault::Memory,
        _ => Fault::Unreadable,
    }
}

/// Whether a declaration is made, which mayn't be refused.
pub(crate) fn taken(answer: Result<(), OrderFault>) -> Result<(), Fault> {
    match answer {
        Ok(()) => Ok(()),
        Err(fault) => Err(refused(fault)),
    }
}

/// Makes the declarations in the field, of which none may be refused.
pub(crate) fn declare_all(alloc: Global, order: &mut Order, field: &[u8]) -> Result<(), Fault> {
    match declare(alloc, order, written(field))? {
        Some(fault) => Err(refused(fault)),
        None => Ok(()),
    }
}

/// The order, if it was made. No order is let go in this crate: that would be proved of all its tables once more.
pub(crate) fn kept(order: Order, made: Result<(), Fault>) -> Result<Order, Fault> {
    match made {
        Ok(()) => Ok(order),
        Err(fault) => {
            mem::forget(order);
            Err(fault)
        }
    }
}

/// The order of the declarations in the field.
pub(crate) fn order(alloc: Global, field: &[u8]) -> Result<Order, Fault> {
    let mut order = Order::empty(alloc);
    let made = declare_all(alloc, &mut order, field);
    kept(order, made)
}
