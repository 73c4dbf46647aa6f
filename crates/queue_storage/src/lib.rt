//! The records of queues and of last pushed ids, in memory and in a vault (HBase keeps them in its replication queue storage, HBASE-27109; the
//! texts are this project's own).
//!
//! | Key | Value |
//! |---|---|
//! | `queue/P/S`, listed | owner, log and offset of the start, offset in the first log that isn't finished, the logs that aren't, with commas |
//! | `queue/P/S`, grouped | the word `group`, owner, log and offset of the start, log and offset of the place |
//! | `last/P/R` | the last pushed id of region R; no record where that is 0 |
//! | `forms` | `old` or `mixed`; no record where all queues are grouped from the beginning |
//!
//! A value is one line of words with single spaces, with numbers in decimal. P is a peer, S a server.
#![tactic(auto)]

mod calls;
mod changes;
mod error;
mod ids;
mod record;
mod store;
mod turns;

pub use error::QueueError;
pub use record::QueueRecord;
pub use store::QueueStore;
