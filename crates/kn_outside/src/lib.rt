//! The outside as contracts see it: links, sinks, files and gates as traits, and fakes in memory.
#![tactic(auto)]

mod failed;
mod failing;
mod file_entry;
mod files;
mod gate;
mod link;
mod mem_files;
mod mem_link;
mod mem_sink;
mod sink;

pub use failed::Failed;
pub use file_entry::FileEntry;
pub use files::{FileFault, Files};
pub use gate::{Gate, Passing};
pub use link::Link;
pub use mem_files::MemFiles;
pub use mem_link::MemLink;
pub use mem_sink::MemSink;
pub use sink::{Sink, write_all};
