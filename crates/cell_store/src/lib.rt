//! The store of one region's cells: those in memory, in the order of a run, and run files in the store that it names, each cut to a
//! range of rows. As in HBase, reads merge both (Reference Guide, "Store": a MemStore and StoreFiles), and a split or merge adopts
//! files cut to a range (Reference Guide, "Region Splits": reference files). A compaction rewrites all files as one; since a delete in
//! it may still hide an older put in memory, it keeps the greatest delete of each column (Reference Guide, "Compaction").
#![tactic(auto)]

mod compacting;
mod gathering;
mod named;
mod placing;
mod rows;
mod store;

pub use named::NamedRun;
pub use store::CellStore;
