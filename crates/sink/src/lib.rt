//! The sink: the forms of a batch arrive one by one, in order, at a host that takes them. How a host takes a form stands with
//! the host; which forms it was given, and what it answered, is told here.
#![tactic(auto)]

mod arrivals;
mod delivery;

pub use arrivals::{Arrival, Arrivals, Halt, Refused};
pub use delivery::{Delivered, deliver};
