//! Two clusters in memory over two stores, and the journal of what happened to them, which is always legal.
#![tactic(auto)]

mod pair;
mod performing;
mod queue_views;
mod region_views;
mod side_views;
mod sides;
mod views;

pub use pair::{NoPair, Pair, StepError, Stores};
pub use sides::Sides;
