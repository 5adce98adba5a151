//! Why an inference isn't drawn.
use pure_term::Grow;
use std::alloc::AllocError;

/// Why an inference isn't drawn: the first of its conditions that fails; or a term of its theorem wouldn't be within the limits; or memory ran out.
#[derive(Clone, Copy, PartialEq, Eq)]
pub enum RuleFault {
    UnknownFact,
    NotProp,
    FreeInHyps { which: u32 },
    FreeInPairs { which: u32 },
    NotAll,
    TypeDiffers,
    NotImplies,
    PremiseDiffers,
    NotEquality,
    MiddleDiffers,
    Mismatched,
    NotBeta,
    NotEta,
    Big,
    Memory,
}

impl From<AllocError> for RuleFault {
    ghost use Rattle.std.specs.Prelude.{◌≡◌};
    ghost use Rattle.pure_theorem.specs.declared.fault.RuleFault.TheVariants.{Memory};

    ghost from_gives = { λ _ fault. fault ≡ Memory };

    fn from(_: AllocError) -> RuleFault {
        RuleFault::Memory
    }
}
