//! Splitting the logs of a dead server: the entries of one region that its new server replays, in the order of the logs
//! (Reference Guide, "WAL Splitting"). How frames are read stands in `wal_reader`.
#![tactic(auto)]

mod error;
mod split;

pub use error::SplitError;
pub use split::split_log;
