//! Why a record isn't replayed.
use std::alloc::AllocError;

/// Why a record isn't replayed: the first of its items that makes no good content; or the first of its lines that is wrong, or too big; or it has no line; or its last line has a hypothesis; or memory ran out. Items and lines are counted from 0, cut off at `u32::MAX`.
#[derive(Clone, Copy, Debug, PartialEq, Eq)]
pub enum ReplayFault {
    Content { item: u32 },
    Line { line: u32 },
    Big { line: u32 },
    Open,
    Empty,
    Memory,
}

impl From<AllocError> for ReplayFault {
    ghost use Rattle.std.specs.Prelude.{◌≡◌};
    ghost use Rattle.pure_replay.specs.declared.fault.ReplayFault.TheVariants.{Memory};

    ghost from_gives = { λ _ fault. fault ≡ Memory };

    fn from(_: AllocError) -> ReplayFault {
        ReplayFault::Memory
    }
}

/// Why a node gives no conclusion: a condition of its inference fails; or its conclusion wouldn't be within the limits; or memory ran out.
#[derive(Clone, Copy, PartialEq, Eq)]
pub(crate) enum NodeFault {
    Wrong,
    Big,
    Memory,
}

impl From<AllocError> for NodeFault {
    ghost use Rattle.std.specs.Prelude.{◌≡◌};
    ghost use Rattle.pure_replay.specs.declared.fault.NodeFault.TheVariants.{Memory};

    ghost from_gives = { λ _ fault. fault ≡ Memory };

    fn from(_: AllocError) -> NodeFault {
        NodeFault::Memory
    }
}
