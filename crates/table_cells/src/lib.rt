//! The memory store of one table: its puts and deletes, kept so that a read costs what it reads, and
//! not what was ever written.
#![tactic(auto)]

mod applied;
mod entry;
mod show;
mod sorted;
mod store;

pub use store::CellStore;
