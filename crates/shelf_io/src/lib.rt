//! The outside of a program: its words, named files and a stream of bytes, which may fail and say so, and who is told how
//! far it is.
#![tactic(auto)]

mod arguments;
mod fault_log;
mod folder;
mod memory_shelf;
mod memory_sink;
mod output;
mod progress;
mod shelves;
mod sinks;
mod used_files;
mod whole_files;

pub use arguments::words;
pub use folder::DirShelf;
pub use memory_shelf::MemShelf;
pub use memory_sink::MemSink;
pub use output::OutSink;
pub use progress::{NoProgress, Progress};
pub use shelves::{CallKind, Shelf, ShelfFault};
pub use sinks::{Sink, SinkFault};
pub use used_files::{FailedWrite, WriteCause};
