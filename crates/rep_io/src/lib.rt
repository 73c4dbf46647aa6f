//! Where a script is read from and where lines are written to. The rules are this project's own.
#![tactic(auto)]

mod faults;
mod memory_sink;
mod memory_source;
mod plan;
mod standard;
mod traits;
mod whole;

pub use memory_sink::MemSink;
pub use memory_source::MemSource;
pub use standard::{StdSink, StdSource};
pub use traits::{ReadFailed, Sink, Source, WriteFailed};
pub use whole::{ReadError, read_all, write_all};
