//! Why there is no unifier of patterns to answer.
use std::alloc::AllocError;

/// Why there is no unifier of patterns to answer.
#[derive(Clone, Copy, Debug, PartialEq, Eq)]
pub enum PatternFault {
    /// In the pair of this number, the first such, a schematic type variable occurs.
    SchematicType { index: u32 },
    /// No pair has a schematic type variable, and that of this number is the first that isn't one of patterns.
    NotPattern { index: u32 },
    /// Nothing solves the pairs.
    NoUnifier,
    /// After 10,000 steps a pair is left.
    Steps,
    /// A side, or an image, is beyond the limits on terms and types.
    Big,
    /// Memory was wanted.
    Memory,
}

impl From<AllocError> for PatternFault {
    ghost use Rattle.std.specs.Prelude.{◌≡◌};
    ghost use Rattle.pure_pattern.specs.declared.fault.PatternFault.TheVariants.{Memory};

    ghost from_gives = { λ _ fault. fault ≡ Memory };

    fn from(_: AllocError) -> PatternFault {
        PatternFault::Memory
    }
}
