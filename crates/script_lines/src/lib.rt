//! The printed lines of a whole script, and those of its views: the queues, the regions and the
//! status, as functions of the machine's state. The views are made from memory. The rules are this
//! project's own.
#![tactic(auto)]

mod queues;
mod regions;
mod view;

pub use view::print_view;
