//! The published beginning of one log, in memory: one pen writes words, and any number of readers follow with no lock.
#![tactic(auto)]

mod rule;
mod table;
mod tail;

pub use table::LogTail;
pub use tail::{Pen, Polled, Reader};
