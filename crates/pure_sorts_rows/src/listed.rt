//! Tables that rows declare.
use pure_certify::Tables;
use pure_order::Order;
use pure_typ::{Name, Typ};
use std::alloc::Global;
use std::mem;

/// Classes and arities; and for each name below a bound how many arguments the constructor takes, and the type of the constant.
#[derive(Drop)]
pub(crate) struct Listed {
    pub(crate) order: Order,
    pub(crate) cons: Vec<u32>,
    pub(crate) consts: Vec<Typ>,
}

impl Listed {
    /// Tables that declare nothing.
    pub(crate) fn empty(alloc: Global) -> Listed {
        Listed {
            order: Order::empty(alloc),
            cons: Vec::new(alloc),
            consts: Vec::new(alloc),
        }
    }

    /// Puts another order in. The one before isn't let go: that would be proved of all its tables once more.
    pub(crate) fn put_order(&mut self, order: Order) {
        mem::forget(mem::replace(&mut self.order, order));
    }
}

impl Tables for Listed {
    ghost use Rattle.pure_sorts_rows.specs.Lists.{decls};

    ghost declarations = { λ l. decls l.order l.cons.items l.consts.items };

    fn typ_params(&self, name: Name) -> Option<u32> {
        let place = name.0 as usize;
        let cons = self.cons.as_slice();
        if cons.len() <= place {
            return None;
        }
        Some(cons[place])
    }

    fn const_typ(&self, name: Name) -> Option<&Typ> {
        let place = name.0 as usize;
        let consts = self.consts.as_slice();
        if consts.len() <= place {
            return None;
        }
        Some(&consts[place])
    }

    fn order(&self) -> &Order {
        &self.order
    }
}
