//! Why a map isn't put into a theorem.
use pure_term::Grow;
use std::alloc::AllocError;

/// Why a map isn't put into a theorem: the first of its conditions that fails; or a term wouldn't be within the limits; or memory ran out.
#[derive(Clone, Copy, Debug, PartialEq, Eq)]
pub enum InstFault {
    /// The image of a type variable isn't of its sort; the place of the first such entry, cut off at `u32::MAX`.
    SortFails { place: u32 },
    /// The image of a variable has not its type; the place of the first such entry, cut off at `u32::MAX`.
    TypeDiffers { place: u32 },
    /// A variable that is to be schematic occurs in a hypothesis; the place of the first such hypothesis, cut off at `u32::MAX`.
    FreeInHyps { which: u32 },
    Big,
    Memory,
}

impl From<AllocError> for InstFault {
    ghost use Rattle.std.specs.Prelude.{◌≡◌};
    ghost use Rattle.pure_inst.specs.declared.fault.InstFault.TheVariants.{Memory};

    ghost from_gives = { λ _ fault. fault ≡ Memory };

    fn from(_: AllocError) -> InstFault {
        InstFault::Memory
    }
}
