//! Why pairs of types aren't unified.
use std::alloc::AllocError;

/// The reason, with the number of the pair that decides.
#[derive(Debug, Drop)]
pub enum TypFault {
    /// The pairs up to this one have no unifier.
    NoTyping { index: u32 },
    /// The most general unifier of the pairs up to this one is beyond the limits.
    Big { index: u32 },
    /// Memory was wanted.
    Memory,
}

impl From<AllocError> for TypFault {
    ghost use Rattle.std.specs.Prelude.{◌≡◌};
    ghost use Rattle.pure_tunify.specs.declared.fault.TypFault.TheVariants.{Memory};

    ghost from_gives = { λ _ fault. fault ≡ Memory };

    fn from(_error: AllocError) -> TypFault {
        TypFault::Memory
    }
}
