//! A region's barriers (HBASE-20046): each opening records the sequence id that it begins with. The
//! final barrier of a region that is split or merged is this project's own.
#![tactic(auto)]

mod barriers;
mod parents;

pub use barriers::{Barriers, Range};
pub use parents::{Parent, Parents};
