//! Lists of cells in the order of a run: put together, cut to a range, compacted, and shown. Of a column (a row, a family and a
//! qualifier) a run has the versions by timestamp and then by rank, of which the greater comes first (Reference Guide, "Sort Order";
//! ranks are this project's own). A delete hides the puts at or below its timestamp, also those with a greater rank (Reference
//! Guide, "Deletes mask Puts"; HBASE-2256).
#![tactic(auto)]

mod compaction;
mod cutting;
mod laws;
mod merging;
mod outdone;
mod views;

pub use compaction::{compact, copy_of};
pub use cutting::cut;
pub use laws::{compaction_outdoes_the_same, compaction_shows_the_same, parts_are_in_order};
pub use merging::merge;
pub use views::show;
