//! The events of queues and flights: a send, a delivery at the destination, and a confirm.
#![tactic(auto)]

mod acks;
mod arriving;
mod batching;
mod delivering;
mod flights;
mod forming;
mod reading;
mod recording;
mod refusals;
mod sending;

pub use delivering::deliver;
pub use flights::find_sent;
pub use recording::confirm;
pub use sending::send;
