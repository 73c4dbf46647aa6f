//! The gate of a serial peer (HBASE-20046): an entry may be sent once all before it that it must follow were recorded or
//! stand in the same batch. What it must follow is told by its region's barriers and parents; the rule is this project's
//! own.
//!
//! A region's reach is the greater of its last pushed id and its greatest id in the batch so far. An entry before the
//! second barrier waits for each parent's reach to come to the end of that parent, which is the parent's final barrier
//! less 1. An entry from a later barrier on waits for its own region's reach to come to that barrier less 1. From one
//! barrier to the next all entries are of one server, whose queue has them in order, so no entry waits for those.
#![tactic(auto)]

mod gate;
mod map;

pub use gate::{Admission, GateView, SoFar, admit};
pub use map::BarrierMap;
