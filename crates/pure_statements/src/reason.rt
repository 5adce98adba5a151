//! Why a command is refused.
use pure_typ::Name;
use std::alloc::AllocError;

/// Why a command is refused. Places are those of bytes in the source.
#[derive(Clone, Copy, Debug, PartialEq, Eq)]
pub enum Reason {
    /// Something of this kind has the name, or the constructor an arity for the class.
    Duplicate,
    /// A class that the command names isn't declared.
    UnknownClass,
    /// The type constructor that the command names isn't declared.
    UnknownType,
    /// There are not as many domains as the type constructor takes arguments.
    WrongCount,
    /// The constructor's arities for these two classes are in conflict.
    NotCoregular { con: Name, c1: Name, c2: Name },
    /// The text isn't in the grammar from this place on.
    Syntax { at: u32 },
    /// The text has too many tokens.
    TooLong,
    /// A name at this place means nothing.
    UnknownNameAt { at: u32 },
    /// A class at this place isn't declared.
    UnknownClassAt { at: u32 },
    /// A type constructor at this place takes another count of arguments.
    WrongCountAt { at: u32 },
    /// A schematic variable stands at this place.
    SchematicAt { at: u32 },
    /// The text up to this place can be typed, and with the part that begins there it can't.
    IllTyped { at: u32 },
    /// The statement has no normal form in so many steps.
    TooManySteps,
    /// The statement, its typing or a term on the way to its normal form is too large.
    TooLarge,
    /// The text doesn't say that the constant equals a term.
    NotDefinition,
    /// The body of a definition has a variable.
    NotClosed,
    /// The body of a definition has a type variable that its type lacks.
    ExtraTypeVariable,
}

/// Why there is no answer: a reason to refuse the command, or want of memory.
#[derive(Clone, Copy, Debug, PartialEq, Eq)]
pub enum Failed {
    Refused { reason: Reason },
    Memory,
}

impl From<AllocError> for Failed {
    ghost use Rattle.std.specs.Prelude.{◌≡◌};
    ghost use Rattle.pure_statements.specs.declared.reason.Failed.TheVariants.{Memory};

    ghost from_gives = { λ _ failed. failed ≡ Memory };

    fn from(_error: AllocError) -> Failed {
        Failed::Memory
    }
}
