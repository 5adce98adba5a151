//! Orders with so many classes and arities as a row says: at the number of bits in a word, for one, and on both sides of it.
use crate::calls::is_answered;
use crate::declarations::{kept, order, taken};
use crate::sorts::{class, constructor, sort_of};
use pure_order::{Order, OrderFault};
use pure_rows::Fault;
use pure_typ::{Name, Sort, Typ, TypNode};
use std::alloc::{AllocError, Global};
use std::mem;

/// A constructor that has no letter.
const CONSTRUCTOR: Name = Name(1000);

/// The name alone.
fn one_name(alloc: Global, name: Name) -> Result<Vec<Name>, AllocError> {
    Ok(vec![in alloc; name]?)
}

/// The domains with the sort of one class.
fn one_domain(alloc: Global, class: Name) -> Result<Vec<Sort>, Fault> {
    let sort = sort_of(alloc, one_name(alloc, class)?)?;
    Ok(vec![in alloc; sort]?)
}

/// Adds so many classes, each below the one before.
fn add_chain(alloc: Global, order: &mut Order, count: u32) -> Result<(), Fault> {
    let mut above = Vec::new(alloc);
    for number in 0..count {
        taken(order.add_class(alloc, Name(number), above.as_slice()))?;
        above = one_name(alloc, Name(number))?;
    }
    Ok(())
}

/// So many classes, each below the one before.
fn chain(alloc: Global, count: u32) -> Result<Order, Fault> {
    let mut order = Order::empty(alloc);
    let made = add_chain(alloc, &mut order, count);
    kept(order, made)
}

/// Adds the class, and an arity for it with it as the domain.
fn add_class(alloc: Global, order: &mut Order, class: Name) -> Result<(), Fault> {
    taken(order.add_class(alloc, class, &[]))?;
    let domains = one_domain(alloc, class)?;
    taken(order.add_arity(alloc, CONSTRUCTOR, domains, class))
}

/// Adds so many unrelated classes, and for each an arity with it as the domain.
fn add_flat(alloc: Global, order: &mut Order, count: u32) -> Result<(), Fault> {
    for number in 0..count {
        add_class(alloc, order, Name(number))?;
    }
    Ok(())
}

/// So many unrelated classes, and for each an arity with it as the domain.
fn flat(alloc: Global, count: u32) -> Result<Order, Fault> {
    let mut order = Order::empty(alloc);
    let made = add_flat(alloc, &mut order, count);
    kept(order, made)
}

/// The sort of the first so many classes.
fn first_classes(alloc: Global, count: u32) -> Result<Sort, Fault> {
    let mut classes = Vec::new(alloc);
    for number in 0..count {
        classes.push(Name(number))?;
    }
    sort_of(alloc, classes)
}

/// The constructor applied to a type variable of the sort.
fn applied(alloc: Global, sort: Sort) -> Result<Typ, AllocError> {
    let node = TypNode::TFree {
        name: Name(0),
        sort,
    };
    let args = vec![in alloc; Typ { node }]?;
    Typ::constructed(alloc, CONSTRUCTOR, args)
}

/// Whether the sort of the first so many classes is reduced to these.
fn reduces_to(alloc: Global, order: &Order, count: u32, wanted: &[Name]) -> Result<bool, Fault> {
    let all = first_classes(alloc, count)?;
    let reduced = order.reduce(alloc, &all)?;
    Ok(reduced.classes() == wanted)
}

/// Whether the classes up to this one are declared, each below the one before.
fn ends_at(order: &Order, last: u32) -> bool {
    let ends = order.below(Name(last), Name(0)) && order.below(Name(0), Name(last)) == (last == 0);
    ends && order.is_declared(Name(last)) && !order.is_declared(Name(last.saturating_add(1)))
}

/// Whether the order is a chain of so many classes.
fn is_chain_of(alloc: Global, order: &Order, count: u32) -> Result<bool, Fault> {
    let Some(last) = count.checked_sub(1) else {
        let none = reduces_to(alloc, order, count, &[])?;
        return Ok(none && !order.is_declared(Name(0)));
    };
    let only = reduces_to(alloc, order, count, &[Name(last)])?;
    Ok(only && ends_at(order, last))
}

/// Whether a chain of so many classes is one.
pub(crate) fn is_chain(alloc: Global, count: u32) -> Result<bool, Fault> {
    let order = chain(alloc, count)?;
    let holds = is_chain_of(alloc, &order, count);
    mem::forget(order);
    holds
}

/// Whether the constructor, applied to a variable of the first classes, so many as it has, is of the sort of the first so many.
fn is_of_all(alloc: Global, order: &Order, count: u32, has: u32) -> Result<bool, Fault> {
    let all = first_classes(alloc, count)?;
    let typ = applied(alloc, first_classes(alloc, has)?)?;
    Ok(order.of_sort(&typ, &all))
}

/// Whether the order has so many unrelated classes, with their arities.
fn is_flat_of(alloc: Global, order: &Order, count: u32) -> Result<bool, Fault> {
    let all = is_of_all(alloc, order, count, count)?;
    let Some(last) = count.checked_sub(1) else {
        return Ok(all);
    };
    let fewer = is_of_all(alloc, order, count, last)?;
    let more = is_of_all(alloc, order, count.saturating_add(1), count)?;
    Ok(all && !fewer && !more)
}

/// Whether so many unrelated classes are such.
pub(crate) fn is_flat(alloc: Global, count: u32) -> Result<bool, Fault> {
    let order = flat(alloc, count)?;
    let holds = is_flat_of(alloc, &order, count);
    mem::forget(order);
    holds
}

/// Whether the union has so many unrelated classes.
fn is_flat_union(alloc: Global, first: &Order, second: &Order, count: u32) -> Result<bool, Fault> {
    if !first.agrees(second) {
        return Ok(false);
    }
    match first.merge(alloc, second) {
        Ok(both) => {
            let holds = is_flat_of(alloc, &both, count);
            mem::forget(both);
            holds
        }
        Err(OrderFault::Memory) => Err(Fault::Memory),
        Err(_) => Ok(false),
    }
}

/// Whether the order, united with so many unrelated classes, has as many.
fn is_united_with(alloc: Global, first: &Order, count: u32) -> Result<bool, Fault> {
    let second = flat(alloc, count)?;
    let holds = is_flat_union(alloc, first, &second, count);
    mem::forget(second);
    holds
}

/// Whether so many unrelated classes, united with the same and one more, are such.
pub(crate) fn is_united(alloc: Global, count: u32) -> Result<bool, Fault> {
    let first = flat(alloc, count)?;
    let holds = is_united_with(alloc, &first, count.saturating_add(1));
    mem::forget(first);
    holds
}

/// The constructor behind which so many come: the last is K.
fn constructor_before(left: u32) -> Result<Name, Fault> {
    if left == 0 {
        constructor(b'K')
    } else {
        Ok(Name(left.saturating_add(1000)))
    }
}

/// Adds an arity for the class, with it as the domain, of so many constructors.
fn add_arities(alloc: Global, order: &mut Order, class: Name, count: u32) -> Result<(), Fault> {
    for number in 0..count {
        let left = count.saturating_sub(number).saturating_sub(1);
        let con = constructor_before(left)?;
        let domains = one_domain(alloc, class)?;
        taken(order.add_arity(alloc, con, domains, class))?;
    }
    Ok(())
}

/// The class c, and an arity for it, with c as the domain, of so many constructors.
fn constructors(alloc: Global, count: u32) -> Result<Order, Fault> {
    let class = class(b'c')?;
    let mut order = order(alloc, b"c<")?;
    let made = add_arities(alloc, &mut order, class, count);
    kept(order, made)
}

/// Whether an order with so many arities gives this answer.
pub(crate) fn has_arities(
    alloc: Global,
    count: u32,
    asked: &[u8],
    wanted: &[u8],
) -> Result<bool, Fault> {
    let order = constructors(alloc, count)?;
    let answered = is_answered(alloc, &order, asked, wanted);
    mem::forget(order);
    answered
}
