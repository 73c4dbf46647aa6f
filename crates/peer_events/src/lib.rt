//! Events of peers: what they do to one cluster's memory and store.
#![tactic(auto)]

mod additions;
mod peers;
mod records;
mod tables;

pub use peers::peer;
