// Tests of whole runs, with the rows in `rows`. They stand here, and not beside the code, since a crate with tests is proved twice.

mod failures;
mod rows;
mod runs;
mod stores;
