ghost use Rattle.std.specs.Prelude.{◌≡◌, map, IfOk};
ghost use Rattle.rep_model.specs.See.{version_of};
ghost use Rattle.table_cells.specs.Entries.{entry_order, delete_of, put_of, entry_of, join_deletes, join_puts, later, joined};

use rep_types::{Bytes, Cell, CellKind, Duplicate, Key, Memory, Name};
use std::alloc::Global;
use std::cmp::Ordering;

/// A put's timestamp and value.
#[derive(Drop)]
pub struct Latest {
    pub stamp: u64,
    pub value: Bytes,
}

/// A column; the greatest timestamp of a delete of it; and the put with the greatest timestamp, among
/// equals the last.
#[derive(Drop)]
pub struct Entry {
    pub row: Key,
    pub family: Name,
    pub qualifier: Name,
    pub delete: Option<u64>,
    pub put: Option<Latest>,
}

fn delete_of(stamp: u64, kind: &CellKind) -> Option<u64>
    ensures { result ≡ delete_of stamp kind.now }
{
    match kind {
        CellKind::Put(_) => None,
        CellKind::Erase => Some(stamp),
    }
}

fn put_of(alloc: Global, stamp: u64, kind: &CellKind) -> Result<Option<Latest>, Memory>
    ensures { IfOk result (λ put. put ≡ put_of stamp kind.now) }
{
    match kind {
        CellKind::Put(value) => Ok(Some(Latest {
            stamp,
            value: value.copy(alloc)?,
        })),
        CellKind::Erase => Ok(None),
    }
}

// The entry of one put or delete.
fn entry_of(alloc: Global, row: &Key, cell: &Cell) -> Result<Entry, Memory>
    ensures { IfOk result (λ entry. entry ≡ entry_of (version_of row.now cell.now)) }
{
    Ok(Entry {
        row: row.copy(alloc)?,
        family: cell.family.copy(alloc)?,
        qualifier: cell.qualifier.copy(alloc)?,
        delete: delete_of(cell.stamp, &cell.kind),
        put: put_of(alloc, cell.stamp, &cell.kind)?,
    })
}

/// The entries of some cells, each by itself.
pub fn entries_of(alloc: Global, row: &Key, cells: &[Cell]) -> Result<Vec<Entry>, Memory>
    ensures { IfOk result (λ entries. entries.items ≡ map entry_of (map (version_of row.now) cells.now)) }
{
    let mut entries = Vec::new(alloc);
    for cell in cells {
        entries.push(entry_of(alloc, row, cell)?)?;
    }
    Ok(entries)
}

/// The order of the columns.
pub fn order(one: &Entry, other: &Entry) -> Ordering
    ensures { result ≡ entry_order one.now other.now }
{
    match one.row.cmp(&other.row) {
        Ordering::Equal => match one.family.cmp(&other.family) {
            Ordering::Equal => one.qualifier.cmp(&other.qualifier),
            unlike => unlike,
        },
        unlike => unlike,
    }
}

fn join_deletes(old: Option<u64>, new: Option<u64>) -> Option<u64>
    ensures { result ≡ join_deletes old new }
{
    let Some(new) = new else {
        return old;
    };
    match old {
        Some(old) => Some(old.max(new)),
        None => Some(new),
    }
}

fn later(old: Latest, new: Latest) -> Latest
    ensures { result ≡ later old new }
{
    if new.stamp < old.stamp { old } else { new }
}

fn join_puts(old: Option<Latest>, new: Option<Latest>) -> Option<Latest>
    ensures { result ≡ join_puts old new }
{
    let Some(new) = new else {
        return old;
    };
    match old {
        Some(old) => Some(later(old, new)),
        None => Some(new),
    }
}

/// Adds what a newer entry of the same column says.
pub fn join(old: &mut Entry, new: Entry)
    ensures { old.new ≡ joined old.old new }
{
    let Entry {
        row: _,
        family: _,
        qualifier: _,
        delete,
        put,
    } = new;
    old.delete = join_deletes(old.delete, delete);
    old.put = join_puts(old.put.take(), put);
}
