//! Parts of the plain program of the machine: what is looked up in its state, and how that changes in
//! place. Nothing here asks a store.
#![tactic(auto)]

pub mod change;
pub mod copies;
pub mod doubt;
pub mod faults;
pub mod forms;
pub mod frames;
pub mod lookup;
pub mod places;
pub mod queues;
pub mod settle;
pub mod sides;
pub mod tickets;
pub mod views;
pub mod waiting;
