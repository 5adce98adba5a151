//! Why nothing is loaded.
use crate::drafts::Draft;
use std::alloc::{AllocError, AllocFailed};
use thiserror::Error;

/// Why nothing is loaded: the library failed, or memory ran out.
#[derive(Debug, Drop, Error)]
pub enum LoadFault {
    #[error("read fault")]
    ReadFault,
    #[error("out of memory")]
    Memory,
}

impl From<AllocError> for LoadFault {
    ghost use Rattle.std.specs.Prelude.{◌≡◌};
    ghost use Rattle.pure_graph.specs.declared.fault.LoadFault.TheVariants.{Memory};

    ghost from_gives = { λ _ fault. fault ≡ Memory };

    fn from(_error: AllocError) -> LoadFault {
        LoadFault::Memory
    }
}

impl From<AllocFailed<Draft>> for LoadFault {
    ghost use Rattle.std.specs.Prelude.{◌≡◌};
    ghost use Rattle.pure_graph.specs.declared.fault.LoadFault.TheVariants.{Memory};

    ghost from_gives = { λ _ fault. fault ≡ Memory };

    fn from(_failed: AllocFailed<Draft>) -> LoadFault {
        LoadFault::Memory
    }
}
