//! The events of tables and regions: a new table, openings and closings, and the recovery of a lost region.
#![tactic(auto)]

mod closing;
mod ending;
mod markers;
mod openings;
mod reading;
mod recovering;
mod tables;

pub use closing::close_begin;
pub use ending::close_end;
pub use markers::open_end;
pub use openings::open_begin;
pub use recovering::recover;
pub use tables::table;
