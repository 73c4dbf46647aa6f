//! Reading a server's logs, which come in pieces. How frames are spelled stands in `wal_entry`.
#![tactic(auto)]

mod error;
mod laws;
mod reader;

pub use error::ReaderError;
pub use laws::any_cutting;
pub use reader::{LogReader, Next};
