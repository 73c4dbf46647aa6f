//! Runs a script over two clusters and their stores, and writes what happened. The rules are this project's own.
#![tactic(auto)]

mod asked;
mod perform;
mod runner;

pub use runner::run;
