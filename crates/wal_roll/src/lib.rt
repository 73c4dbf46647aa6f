//! Writing a server's log, a file of the store's folder `wal`: one frame an entry, as `wal_entry` spells it.
//!
//! A log is committed entries and pending ones behind them. The synced bytes of its file are the frames of the committed
//! entries, and the written bytes go on with frames of pending ones, the last perhaps cut where an append failed. A log is
//! synced and rolled as HBase's write-ahead log is (Reference Guide, "Write Ahead Log (WAL)"); the limit of 65,536 bytes, and
//! that a log is closed to appends and syncs once one of them failed, are this project's own rules.
#![tactic(auto)]

mod error;
mod file;
mod laws;
mod lengths;
mod writer;

pub use error::LogError;
pub use file::{FOLDER, file_name};
pub use laws::log_names_are_apart;
pub use writer::LogWriter;
