ghost use Rattle.std.specs.Prelude.{◌≡◌, IfOk};
ghost use Rattle.std.specs.List.{filter_map};
ghost use Rattle.rep_model.specs.See.{is_hidden, view_of};
ghost use Rattle.table_cells.specs.Entries.{column, stamped, shown_of};

use crate::entry::{Entry, Latest};
use rep_types::{CellView, Duplicate, Items, Memory, Views};
use std::alloc::Global;

fn is_hidden(delete: Option<u64>, stamp: u64) -> bool
    ensures { result ≡ is_hidden delete stamp }
{
    match delete {
        None => false,
        Some(delete) => stamp <= delete,
    }
}

fn view(alloc: Global, entry: &Entry, put: &Latest) -> Result<CellView, Memory>
    ensures { IfOk result (λ view. view ≡ view_of (column entry.now) (stamped put.now)) }
{
    Ok(CellView {
        row: entry.row.copy(alloc)?,
        family: entry.family.copy(alloc)?,
        qualifier: entry.qualifier.copy(alloc)?,
        stamp: put.stamp,
        value: put.value.copy(alloc)?,
    })
}

fn shown_of(alloc: Global, entry: &Entry) -> Result<Option<CellView>, Memory>
    ensures { IfOk result (λ view. view ≡ shown_of entry.now) }
{
    match &entry.put {
        Some(put) if !is_hidden(entry.delete, put.stamp) => Ok(Some(view(alloc, entry, put)?)),
        _ => Ok(None),
    }
}

/// What the entries show; only what is shown is copied.
pub fn show(alloc: Global, entries: &[Entry]) -> Result<Views, Memory>
    ensures { IfOk result (λ views. views ≡ filter_map shown_of entries.now) }
{
    let mut views = Items::new(alloc);
    for entry in entries {
        if let Some(view) = shown_of(alloc, entry)? {
            views.push(view)?;
        }
    }
    Ok(views)
}
