//! Tests of the texts, a module for each crate: `lines` of `report_text`, `scripts` of `script_text`.
#![tactic(auto)]

#[cfg(test)]
mod lines;
#[cfg(test)]
mod scripts;
