//! Why the program ends early.
use pure_kernel::{DeclFault, InstFault, RuleFault, TextFault};
use std::alloc::AllocError;
use std::io;

/// The kind of call that is refused.
#[derive(Clone, Copy)]
pub(crate) enum Stop {
    /// The table lacks a name, or the theory may not begin.
    Missing,
    Text,
    Declaration,
    Inference,
    Instance,
    Output,
    Memory,
}

impl From<io::Error> for Stop {
    fn from(_: io::Error) -> Stop {
        Stop::Output
    }
}

impl From<TextFault> for Stop {
    fn from(_: TextFault) -> Stop {
        Stop::Text
    }
}

impl From<DeclFault> for Stop {
    fn from(_: DeclFault) -> Stop {
        Stop::Declaration
    }
}

impl From<RuleFault> for Stop {
    fn from(_: RuleFault) -> Stop {
        Stop::Inference
    }
}

impl From<InstFault> for Stop {
    fn from(_: InstFault) -> Stop {
        Stop::Instance
    }
}

impl From<AllocError> for Stop {
    fn from(_: AllocError) -> Stop {
        Stop::Memory
    }
}
