//! Theories of classes and arities alone.
ghost use Rattle.std.specs.Prelude.{◌≡◌};

use pure_inst::Ordered;
use pure_order::{Order, OrderFault};
use pure_term::{Label, Name, Sort, Term};
use pure_theorem::Base;
use std::alloc::Global;

/// A theory that declares nothing but its classes and arities.
#[derive(Drop)]
pub struct Classes {
    order: Order,
}

impl Base for Classes {
    ghost use Rattle.std.specs.Prelude.{[], None};
    ghost use Rattle.pure_shown.specs.Declarations.{declared};

    ghost content = { λ s. record { declarations = declared s.order; own = None; ancestors = [] } };

    fn axiom_prop(&self, _name: Name) -> Option<&Term> {
        None
    }

    fn promise_prop(&self, _label: Label) -> Option<&Term> {
        None
    }
}

impl Ordered for Classes {
    fn order(&self) -> &Order {
        &self.order
    }
}

/// The names of the class A.c, of the class A.d below it, and of the type A.i.
const UPPER: Name = Name(8);

const LOWER: Name = Name(9);

const CON: Name = Name(11);

/// The theory of the class A.c, the class A.d below it and the type A.i.
fn before(alloc: Global) -> Result<Classes, OrderFault> {
    let mut order = Order::empty(alloc);
    order.add_class(alloc, UPPER, &[])?;
    order.add_class(alloc, LOWER, &[UPPER])?;
    Ok(Classes { order })
}

/// The same theory with A.i of the class A.c.
fn after(alloc: Global) -> Result<Classes, OrderFault> {
    let mut thy = before(alloc)?;
    thy.order.add_arity(alloc, CON, Vec::new(alloc), UPPER)?;
    Ok(thy)
}

/// Two theories of the class A.c, the class A.d below it and the type A.i: before that type is of the class A.c, and after.
#[derive(Drop)]
pub struct Theories {
    pub before: Classes,
    pub after: Classes,
}

impl Theories {
    /// Both theories.
    pub fn make(alloc: Global) -> Result<Theories, OrderFault> {
        let before = before(alloc)?;
        let after = after(alloc)?;
        Ok(Theories { before, after })
    }

    /// The theory that the word names.
    pub fn named(&self, word: &[u8]) -> Option<&Classes> {
        match word {
            b"before" => Some(&self.before),
            b"after" => Some(&self.after),
            _ => None,
        }
    }
}
