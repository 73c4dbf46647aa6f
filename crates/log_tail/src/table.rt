ghost use Rattle.std.specs.Prelude.{◌≡◌, ◌+◌, ◌≤◌};

use crate::rule::{Knows, Published};
use atomic_table::Table;
use std::alloc::Global;

/// The words of one log that were published so far. It is shared by its pen's thread and its readers'.
#[derive(Drop)]
pub struct LogTail {
    pub(crate) table: Table<u8, Knows, usize, Published, Global>,
    ghost sized: { table.shared.table_id.words ≡ table.shared.key + 2 },
    ghost small: { table.shared.key ≤ 8192 },
}
