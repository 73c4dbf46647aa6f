//! Scripts: their grammar, and the events that their commands make. The rules are this project's own.
#![tactic(auto)]

mod cells;
mod command;
mod cut;
mod expand;
mod forms;
mod generator;
mod head;
mod kept;
mod line;
mod lines;
mod lists;
mod makings;
mod parser;
mod put;
mod read;
mod rule;
mod words;

pub use command::{Command, Commands, Input};
pub use expand::sync_all_event;
pub use generator::generate;
pub use parser::{ParseError, parse};
use rule::Rule;
