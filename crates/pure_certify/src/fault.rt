//! Why something isn't certified.
use pure_typ::Name;
use std::alloc::AllocError;

/// Why a type or a term isn't certified. Of several faults the first counts.
#[derive(Clone, Copy, PartialEq, Eq, Debug)]
pub enum CertFault {
    /// The type constructor isn't declared.
    UnknownType { name: Name },
    /// The type constructor is declared with another count of arguments.
    WrongCount { name: Name },
    /// The class isn't declared.
    UnknownClass { name: Name },
    /// The constant isn't declared.
    UnknownConst { name: Name },
    /// The constant's type matches its declared type by no substitution.
    NotInstance { name: Name },
    /// The constant's type matches its declared type, and this is the first variable of the declared type whose image isn't of its sort.
    SortFails { var: Name },
    /// All that stands in the term is certified, but it has no type: its first node at fault has this place, cut off at `u32::MAX`.
    NotTyped { place: u32 },
    /// Memory was wanted.
    Memory,
}

impl From<AllocError> for CertFault {
    ghost use Rattle.std.specs.Prelude.{◌≡◌};
    ghost use Rattle.pure_certify.specs.declared.fault.CertFault.TheVariants.{Memory};

    ghost from_gives = { λ _ fault. fault ≡ Memory };

    fn from(_error: AllocError) -> CertFault {
        CertFault::Memory
    }
}
