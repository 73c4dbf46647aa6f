//! The events of a table's data: a put, and what a row or a table shows.
#![tactic(auto)]

mod reading;
mod typed;
mod writing;

pub use reading::{get, show};
pub use writing::put;
