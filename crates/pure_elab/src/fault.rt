//! Why a written term or type says nothing.
use std::alloc::AllocError;

/// A fault of a name.
#[derive(Clone, Copy, Debug, PartialEq, Eq)]
pub enum NameFault {
    /// The name means nothing.
    UnknownName,
    /// The class isn't declared.
    UnknownSort,
    /// The type constructor takes another count of arguments.
    WrongCount,
    /// A schematic variable can't be written.
    Schematic,
}

/// A fault of a name, with the place of its token in the source.
#[derive(Clone, Copy, Debug, PartialEq, Eq)]
pub struct FaultAt {
    pub at: u32,
    pub fault: NameFault,
}

/// Why a text isn't elaborated. Places are those of bytes in the source.
#[derive(Clone, Copy, Debug, PartialEq, Eq)]
pub enum ElabFault {
    /// A name at this place means nothing.
    UnknownName { at: u32 },
    /// A class at this place isn't declared.
    UnknownSort { at: u32 },
    /// A type constructor takes another count of arguments; its type begins at this place.
    WrongCount { at: u32 },
    /// A schematic variable stands at this place.
    Schematic { at: u32 },
    /// The text up to this place can be typed, and with the part that begins there it can't.
    IllTyped { at: u32 },
    /// The typing or the term isn't within the limits.
    Big,
    /// Memory was wanted.
    Memory,
}

impl From<AllocError> for ElabFault {
    ghost use Rattle.std.specs.Prelude.{◌≡◌};
    ghost use Rattle.pure_elab.specs.declared.fault.ElabFault.TheVariants.{Memory};

    ghost from_gives = { λ _ fault. fault ≡ Memory };

    fn from(_error: AllocError) -> ElabFault {
        ElabFault::Memory
    }
}
