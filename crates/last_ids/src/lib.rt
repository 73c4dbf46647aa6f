//! The last pushed sequence ids of regions, or others by region.
#![tactic(auto)]

mod ids;

pub use ids::{LastId, LastIds};
