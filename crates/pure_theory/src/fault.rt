//! Why a declaration is refused.
use pure_order::OrderFault;
use pure_term::Name;
use std::alloc::AllocError;

/// Why something can't be declared, or a theory can't begin.
#[derive(Clone, Copy, PartialEq, Eq)]
pub enum DeclFault {
    /// Something of this kind is declared under the name, or the constructor has an arity for the class.
    Duplicate,
    /// This class isn't declared: the first such that is named.
    UnknownClass { class: Name },
    /// The type constructor isn't declared.
    UnknownType { name: Name },
    /// The type constructor is declared with another count of arguments.
    WrongCount { name: Name },
    /// The constructor's arities for these two classes are in conflict.
    NotCoregular { con: Name, c1: Name, c2: Name },
    /// The body of a definition has a variable.
    NotClosed,
    /// The body of a definition has a type variable that its type lacks.
    ExtraType,
    /// Memory was wanted.
    Memory,
}

impl From<AllocError> for DeclFault {
    ghost use Rattle.std.specs.Prelude.{◌≡◌};
    ghost use Rattle.pure_theory.specs.declared.fault.DeclFault.TheVariants.{Memory};

    ghost from_gives = { λ _ fault. fault ≡ Memory };

    fn from(_error: AllocError) -> DeclFault {
        DeclFault::Memory
    }
}

impl From<OrderFault> for DeclFault {
    ghost use Rattle.std.specs.Prelude.{◌≡◌};
    ghost use Rattle.pure_theory.specs.Refusals.{refusal_of};

    ghost from_gives = { λ given fault. fault ≡ refusal_of given };

    fn from(given: OrderFault) -> DeclFault {
        match given {
            OrderFault::UnknownClass { class } => DeclFault::UnknownClass { class },
            OrderFault::Duplicate => DeclFault::Duplicate,
            OrderFault::NotCoregular { con, c1, c2 } => DeclFault::NotCoregular { con, c1, c2 },
            OrderFault::Memory => DeclFault::Memory,
        }
    }
}
