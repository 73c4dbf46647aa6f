//! What a server keeps of its current log: the writer, the entries that are pending, and the tickets of puts among them.
//!
//! An entry is pending from its append until a sync commits it, as in HBase, where an edit that was appended to the
//! write-ahead log counts only once the log is synced (Reference Guide, "Write Ahead Log (WAL)"). Tickets are this project's
//! own: each names a put whose client waits for an answer.
#![tactic(auto)]

mod host;
mod lists;

pub use host::{Committed, Host, Kept};
