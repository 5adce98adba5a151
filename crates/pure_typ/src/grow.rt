//! Why a term or a type isn't made.
use std::alloc::AllocError;

/// Why a term isn't made: it wouldn't be within the limits, or memory ran out.
#[derive(Clone, Copy, Debug, PartialEq, Eq)]
pub enum Grow {
    Big,
    Memory,
}

impl From<AllocError> for Grow {
    ghost use Rattle.std.specs.Prelude.{◌≡◌};
    ghost use Rattle.pure_typ.specs.declared.grow.Grow.TheVariants.{Memory};

    ghost from_gives = { λ _ fault. fault ≡ Memory };

    fn from(_: AllocError) -> Grow {
        Grow::Memory
    }
}
