//! What is sent of a queue: which of its entries a batch takes, and every batch that was sent.
//!
//! A batch is the longest prefix of a queue of at most so many entries whose frames together have at most 65,536 bytes. A
//! serial peer admits each of them after those before it (HBASE-20046); the other peers admit every entry. The limit of
//! bytes is this project's own.
//!
//! A batch that was sent is a flight. Flights are numbered from 1, and each keeps what it held when it was sent, so that it
//! may be delivered again at any time. A queue has at most one outstanding flight, which ends when it is confirmed or lost.
#![tactic(auto)]

mod error;
mod flights;
mod forming;
mod laws;
mod queue;
mod reserve;
mod sent;
mod typed;

pub use error::FlightError;
pub use flights::Flights;
pub use forming::{Formed, form_batch};
pub use laws::one_flight_a_queue;
pub use queue::QueueId;
