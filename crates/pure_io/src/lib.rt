//! The outside of the program: a library of files, a sink of bytes, and a gate before each proof.
#![tactic(auto)]

mod dir_library;
mod entries;
mod failures;
mod gate;
mod library;
mod mem_library;
mod mem_sink;
mod reading;
mod sink;
mod std_sink;

pub use dir_library::DirLibrary;
pub use gate::{Gate, OpenGate};
pub use library::{File, LibFault, Library, ReadFault};
pub use mem_library::MemLibrary;
pub use mem_sink::MemSink;
pub use sink::{Failed, Sink, write_all};
pub use std_sink::StdSink;
