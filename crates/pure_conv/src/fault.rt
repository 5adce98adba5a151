//! Why a conversion gives no theorem.
ghost use Rattle.std.specs.Prelude.{◌≡◌};
ghost use Rattle.pure_conv.specs.Answer as answers;

use pure_theorem::{RuleFault, Thm};
use std::alloc::AllocError;

/// Why a conversion gives no theorem: the first of its conditions that fails; or a term of its theorem wouldn't be within the limits; or memory ran out.
#[derive(Clone, Copy, Debug, PartialEq, Eq)]
pub enum ConvFault {
    NotEquality,
    MiddleDiffers,
    TypeDiffers,
    /// The variable occurs in a hypothesis; the place of the first such hypothesis, cut off at `u32::MAX`.
    FreeInHyps { which: u32 },
    /// The variable occurs in a pair; the place of the first such pair, cut off at `u32::MAX`.
    FreeInPairs { which: u32 },
    NotDefinition,
    NothingToUnfold,
    Big,
    Memory,
}

impl From<AllocError> for ConvFault {
    ghost use Rattle.std.specs.Prelude.{◌≡◌};
    ghost use Rattle.pure_conv.specs.declared.fault.ConvFault.TheVariants.{Memory};

    ghost from_gives = { λ _ fault. fault ≡ Memory };

    fn from(_: AllocError) -> ConvFault {
        ConvFault::Memory
    }
}

/// The fault of a conversion that an inference's is. Faults that no conversion has are want of memory; no inference that a conversion draws answers one.
fn conv_fault(fault: RuleFault) -> ConvFault
    ensures { result ≡ answers.conv_fault fault }
{
    match fault {
        RuleFault::NotEquality => ConvFault::NotEquality,
        RuleFault::MiddleDiffers => ConvFault::MiddleDiffers,
        RuleFault::TypeDiffers => ConvFault::TypeDiffers,
        RuleFault::FreeInHyps { which } => ConvFault::FreeInHyps { which },
        RuleFault::FreeInPairs { which } => ConvFault::FreeInPairs { which },
        RuleFault::Big => ConvFault::Big,
        _ => ConvFault::Memory,
    }
}

/// The answer of an inference as that of a conversion.
pub fn conv_answer(answer: Result<Thm, RuleFault>) -> Result<Thm, ConvFault>
    ensures { result ≡ answers.conv_answer answer }
{
    match answer {
        Ok(th) => Ok(th),
        Err(fault) => Err(conv_fault(fault)),
    }
}
