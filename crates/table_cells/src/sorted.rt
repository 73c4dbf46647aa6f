// Entries in the order of their columns, each column once.
ghost use Rattle.std.specs.Prelude.{◌≡◌, ◌+◌, ◌≤◌, ◌<◌, true, false, Some, IfOk, IfErr, length, map, filter, insert, slice_get, slice_set, vec_len, vec_capacity};
ghost use Rattle.std.specs.List.Sorted.{IsSearchInRange, IsPartitionPoint};
ghost use Rattle.table_cells.specs.Entries.{column, joined, add, add_all, IsRising, is_below_row, is_upto_row, is_of_row};
ghost use Rattle.table_cells.specs.declared.entry.Entry.{Entry};

use crate::entry::{Entry, join, order};
use rep_types::Key;

// Where the column stands, or where it goes.
fn place(entries: &[Entry], new: &Entry) -> Result<usize, usize>
    requires { IsRising (map column entries.now) }
    ensures bound { IsSearchInRange result (length entries.now) }
    ensures stands { IfOk result (λ at. (old : Entry) → slice_get entries.now at ≡ Some old → add new.now entries.now ≡ slice_set entries.now at (joined old new.now)) }
    ensures absent { IfErr result (λ at. add new.now entries.now ≡ insert entries.now at new.now) }
{
    entries.binary_search_by(|entry| order(entry, new))
}

fn add(entries: &mut Vec<Entry>, new: Entry)
    requires order { IsRising (map column entries.old.items) }
    requires room { vec_len entries.old < vec_capacity entries.old }
    ensures items { entries.new.items ≡ add new entries.old.items }
    ensures len { vec_len entries.new ≤ vec_len entries.old + 1 }
    ensures capacity { vec_capacity entries.old ≤ vec_capacity entries.new }
{
    match place(entries, &new) {
        Ok(at) => join(&mut entries[at], new),
        Err(at) => {
            let _ = entries.insert(at, new);
        }
    }
}

/// Adds entries of one cell each, in order; it takes no memory.
pub fn add_all(entries: &mut Vec<Entry>, news: Vec<Entry>)
    requires order { IsRising (map column entries.old.items) }
    requires room { vec_len entries.old + vec_len news ≤ vec_capacity entries.old }
    ensures { entries.new.items ≡ add_all entries.old.items news.items }
{
    for new in news {
        add(entries, new);
    }
}

fn below_row(entries: &[Entry], row: &Key) -> usize
    requires { IsRising (map column entries.now) }
    ensures bound { result ≤ length entries.now }
    ensures parts { IsPartitionPoint (λ entry. is_below_row row.now entry ≡ true) (λ entry. is_below_row row.now entry ≡ false) entries.now result }
{
    entries.partition_point(|entry| entry.row.cmp(row).is_lt())
}

fn upto_row(entries: &[Entry], row: &Key) -> usize
    requires { IsRising (map column entries.now) }
    ensures bound { result ≤ length entries.now }
    ensures parts { IsPartitionPoint (λ entry. is_upto_row row.now entry ≡ true) (λ entry. is_upto_row row.now entry ≡ false) entries.now result }
{
    entries.partition_point(|entry| entry.row.cmp(row).is_le())
}

/// The entries of a row.
pub fn of_row<'a>(entries: &'a [Entry], row: &Key) -> &'a [Entry]
    requires { IsRising (map column entries.now) }
    ensures { result.now ≡ filter (is_of_row row.now) entries.now }
{
    let low = below_row(entries, row);
    let high = upto_row(entries, row);
    &entries[low..high]
}
