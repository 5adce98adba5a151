//! Why a term has no normal form.
use std::alloc::AllocError;

/// Why a term has no answer: too many steps, a term that isn't within the limits, or memory ran out.
#[derive(Clone, Copy, Debug, PartialEq, Eq)]
pub enum NormFault {
    Steps,
    Big,
    Memory,
}

impl From<AllocError> for NormFault {
    ghost use Rattle.std.specs.Prelude.{◌≡◌};
    ghost use Rattle.pure_norm.specs.declared.fault.NormFault.TheVariants.{Memory};

    ghost from_gives = { λ _ fault. fault ≡ Memory };

    fn from(_: AllocError) -> NormFault {
        NormFault::Memory
    }
}
