//! Where bytes come from and where they go: the two traits by which the project reads and writes, and two calls over them.
//! It knows nothing of what the bytes say, and it names no file, no socket and no terminal.
#![tactic(auto)]

mod failed;
mod mem_sink;
mod mem_source;
mod reading;
mod schedule;
mod sink;
mod source;
mod std_sink;
mod std_source;
#[cfg(test)]
mod tests;
mod writing;

pub use failed::Failed;
pub use mem_sink::MemSink;
pub use mem_source::MemSource;
pub use reading::{ReadEnd, read_all};
pub use sink::Sink;
pub use source::Source;
pub use std_sink::StdSink;
pub use std_source::StdSource;
pub use writing::write_all;
