//! Why a declaration is refused.
use pure_typ::Name;
use std::alloc::AllocError;

/// Why a class, an arity or another order can't be added.
#[derive(Clone, Copy, PartialEq, Eq, Debug)]
pub enum OrderFault {
    /// This class isn't declared: the first such that the declaration names.
    UnknownClass { class: Name },
    /// The class is declared already, or the constructor's arity for the class.
    Duplicate,
    /// The constructor's arities for these two classes are in conflict.
    NotCoregular { con: Name, c1: Name, c2: Name },
    /// Memory was wanted.
    Memory,
}

impl From<AllocError> for OrderFault {
    ghost use Rattle.std.specs.Prelude.{◌≡◌};
    ghost use Rattle.pure_order.specs.declared.fault.OrderFault.TheVariants.{Memory};

    ghost from_gives = { λ _ fault. fault ≡ Memory };

    fn from(_error: AllocError) -> OrderFault {
        OrderFault::Memory
    }
}
