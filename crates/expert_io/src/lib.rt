//! What the program reads from and writes to: shelves of named files, and sinks of bytes.
//!
//! A shelf and a sink count their faults, so that a caller's contract can say that an answer comes
//! only where a read or a write failed in that very call.
#![tactic(auto)]

mod lists;
mod memory_shelf;
mod memory_sink;
mod real;
mod shelf;
mod sink;

pub use lists::{Calls, Files, Words};
pub use memory_shelf::MemoryShelf;
pub use memory_sink::MemorySink;
pub use real::{FileShelf, StdSink};
pub use shelf::{ReadFault, Shelf, read_file};
pub use sink::{Failed, Sink, write_all};
