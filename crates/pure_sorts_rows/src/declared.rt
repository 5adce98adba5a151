//! Orders in the notation of types: `'d:c` is the class d below c, and `> 'c k/2 'x:d 'x` the arity of k for c whose
//! domains are {d} and the sort without a class.
use crate::read::typs;
use pure_order::{Order, OrderFault};
use pure_rows::Fault;
use pure_typ::{Name, Sort, Typ, TypNode};
use std::alloc::Global;
use std::mem;

/// The name of a fixed variable.
fn name_of(t: &Typ) -> Result<Name, Fault> {
    match &t.node {
        TypNode::TFree { name, .. } => Ok(*name),
        _ => Err(Fault::Unreadable),
    }
}

/// The sort of a fixed variable.
fn sort_of(alloc: Global, t: &Typ) -> Result<Sort, Fault> {
    match &t.node {
        TypNode::TFree { sort, .. } => Ok(sort.copy(alloc)?),
        _ => Err(Fault::Unreadable),
    }
}

/// The sorts of fixed variables.
fn domains(alloc: Global, typs: &[Typ]) -> Result<Vec<Sort>, Fault> {
    let mut domains = Vec::new(alloc);
    for typ in typs {
        domains.push(sort_of(alloc, typ)?)?;
    }
    Ok(domains)
}

/// What a refusal makes of the row that declares.
fn taken(answer: Result<(), OrderFault>) -> Result<(), Fault> {
    match answer {
        Ok(()) => Ok(()),
        Err(OrderFault::Memory) => Err(Fault::Memory),
        Err(_) => Err(Fault::Unreadable),
    }
}

/// Declares an arity for the class.
fn declare_arity(alloc: Global, order: &mut Order, class: Name, t: &Typ) -> Result<(), Fault> {
    match &t.node {
        TypNode::Con { name, args } => {
            let domains = domains(alloc, args.as_slice())?;
            taken(order.add_arity(alloc, *name, domains, class))
        }
        _ => Err(Fault::Unreadable),
    }
}

/// Declares a class or an arity.
fn declare(alloc: Global, order: &mut Order, t: &Typ) -> Result<(), Fault> {
    match t.as_arrow() {
        Some((class, con)) => declare_arity(alloc, order, name_of(class)?, con),
        None => {
            let above = sort_of(alloc, t)?;
            taken(order.add_class(alloc, name_of(t)?, above.classes()))
        }
    }
}

/// Makes the declarations.
fn declare_all(alloc: Global, order: &mut Order, declarations: &[Typ]) -> Result<(), Fault> {
    for declaration in declarations {
        declare(alloc, order, declaration)?;
    }
    Ok(())
}

/// The order of the text.
pub(crate) fn order(alloc: Global, text: &[u8]) -> Result<Order, Fault> {
    let declarations = typs(alloc, text)?;
    let mut order = Order::empty(alloc);
    match declare_all(alloc, &mut order, &declarations) {
        Ok(()) => Ok(order),
        Err(fault) => {
            mem::forget(order);
            Err(fault)
        }
    }
}
