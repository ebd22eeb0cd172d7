//! The outside: named files, and a sink for what is printed.
//!
//! `Files` and `Sink` say what may be relied on, whoever carries them out. `MemFiles` and `MemSink`
//! keep everything in memory, tell all that they hold, and fail at the calls that they are told to.
//! `DiskFiles` and `StdSink` are the real ones: they tell nothing of content, and count each fault.
#![tactic(auto)]

mod calls;
mod disk;
mod files;
mod mem_files;
mod mem_sink;
mod name;
mod shelf;
mod sink;
mod std_sink;

pub use disk::DiskFiles;
pub use files::{FileFault, Files};
pub use mem_files::MemFiles;
pub use mem_sink::MemSink;
pub use name::Name;
pub use sink::{Sink, SinkFault, put_all};
pub use std_sink::StdSink;
