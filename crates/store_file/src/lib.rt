//! Run files: cells of a table in a file of the store's folder `run`, both ways. As HBase's store files they are sorted and
//! never changed (Reference Guide, "StoreFile (HFile)"); the format is this project's own.
//!
//! A run is the number of its cells in eight bytes, then each cell:
//!
//! | Field | Bytes |
//! |---|---|
//! | length of the row, row | 2, 1 to 64 |
//! | length of the family, family | 1, 1 to 16 |
//! | length of the qualifier, qualifier | 1, 1 to 16 |
//! | timestamp | 8 |
//! | 1 for a put, 2 for a delete | 1 |
//! | generation, sequence id and replay number of the rank | 2, 8, 4 |
//! | of a put alone: length of the value, value | 2, 0 to 65,535 |
//!
//! Numbers have their highest byte first. Cells are in the order of `RunCell::order`, none equals another there, and nothing
//! follows. The rules, by number: 1 there are eight bytes for the number, 2 a cell's fields are allowed, 3 a cell is behind the
//! one before it, 4 the bytes end behind the last cell, 5 they don't end in a cell. The number and then each cell are judged in
//! order, a cell by rule 5, then 2, then 3.
#![tactic(auto)]

mod allowed;
mod cell;
mod error;
mod fields;
mod laws;
mod read;
mod write;

pub use cell::{RunCell, RunCells};
pub use error::RunError;
pub use laws::runs_read_back;
pub use read::read_run;
pub use write::{FOLDER, write_run};
