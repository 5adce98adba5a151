//! Why there is no unifier to answer.
use std::alloc::AllocError;

/// Why there is no unifier to answer.
#[derive(Clone, Copy, Debug, PartialEq, Eq)]
pub enum UnifyFault {
    /// Each branch of the search fails.
    NoUnifier,
    /// Beyond the 64 choices of a branch, or the 10,000 nodes of the search, one could be found.
    SearchBound,
    /// A side has no normal form within the limit on steps.
    Steps,
    /// A side, or an image of the unifier, is beyond the limits on terms and types.
    Big,
    /// Memory was wanted.
    Memory,
}

impl From<AllocError> for UnifyFault {
    ghost use Rattle.std.specs.Prelude.{◌≡◌};
    ghost use Rattle.pure_unify.specs.declared.fault.UnifyFault.TheVariants.{Memory};

    ghost from_gives = { λ _ fault. fault ≡ Memory };

    fn from(_: AllocError) -> UnifyFault {
        UnifyFault::Memory
    }
}
