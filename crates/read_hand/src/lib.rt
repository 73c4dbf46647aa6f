//! The hand-off of a log's pieces from the thread that reads it to the thread that ships them, in order, by a queue with no lock.
#![tactic(auto)]

mod hand;
mod piece;
mod rule;

pub use hand::{Giver, Hand, Taker};
pub use piece::Piece;
