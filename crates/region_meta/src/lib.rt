//! The tables and regions of one cluster: which region holds a row, and where it is. Splits and merges
//! follow HBase (Reference Guide, Regions); the numbering of regions, and that only closed regions are
//! split or merged, are this project's own.
#![tactic(auto)]

mod bounds;
mod error;
mod map;
mod merge;
mod order;
mod region;
mod split;

pub use error::MetaError;
pub use map::RegionMap;
pub use region::Region;
