//! The texts of records: each event as a script has it, and its reply; and the lines of views and
//! of a drain's end. The words are this project's own.
#![tactic(auto)]

mod cell;
mod drains;
mod event;
mod lines;
mod lists;
mod queues;
mod refusal;
mod regions;
mod reply;
mod summary;
mod words;

pub use drains::drain_line;
pub use lines::{print_lines, print_record, views};
pub use queues::queue_line;
pub use regions::region_line;
pub use summary::status_line;
