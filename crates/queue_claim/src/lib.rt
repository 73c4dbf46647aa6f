//! Claims of queues: a live server takes over the queue of a dead one (HBase's ClaimReplicationQueuesProcedure, HBASE-26029).
#![tactic(auto)]

mod claiming;

pub use claiming::{ClaimError, claim, may_claim};
