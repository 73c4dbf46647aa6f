//! Tests of parts, a module for each crate: `batches` of `wire_batch`, `frames` of `wal_entry`, `queues` of `queue_storage` and
//! `queue_claim`, `run_files` of `store_file`, `shown_cells` of `run_cells`, `stores` of `rep_vault`, `types` of `rep_types`.
#![tactic(auto)]

#[cfg(test)]
mod batches;
#[cfg(test)]
mod frames;
#[cfg(test)]
mod queues;
#[cfg(test)]
mod run_files;
#[cfg(test)]
mod shown_cells;
#[cfg(test)]
mod stores;
#[cfg(test)]
mod types;
