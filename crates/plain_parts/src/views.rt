// What a table shows.
ghost use Rattle.std.specs.Prelude.{◌≡◌, IfOk};
ghost use Rattle.rep_model.specs.See.{see};
ghost use Rattle.rep_model.specs.Reads.{table_edits, row_edits};

use rep_model::Written;
use rep_types::{Edit, Key, Memory, Name, Views};
use std::alloc::Global;
use table_cells::CellStore;

/// What edits of one table show: the put with the greatest timestamp of each cell, among equals
/// the last, where no delete of the cell has that timestamp or a greater one; by row, then by
/// family, then by qualifier.
pub fn see(alloc: Global, edits: &[Edit]) -> Result<Views, Memory>
    ensures { IfOk result (λ views. views ≡ see edits.now) }
{
    let mut cells = CellStore::new(alloc);
    for edit in edits {
        cells.apply(alloc, edit)?;
    }
    cells.scan(alloc)
}

// The cells that are written of a table.
fn cells_of(alloc: Global, written: &[Written], table: &Name) -> Result<CellStore, Memory>
    ensures { IfOk result (λ cells. cells ≡ table_edits table.now written.now) }
{
    let mut cells = CellStore::new(alloc);
    for item in written {
        if item.edit.table() == table {
            cells.apply(alloc, &item.edit)?;
        }
    }
    Ok(cells)
}

/// What the table shows.
pub fn see_table(alloc: Global, written: &[Written], table: &Name) -> Result<Views, Memory>
    ensures { IfOk result (λ views. views ≡ see (table_edits table.now written.now)) }
{
    cells_of(alloc, written, table)?.scan(alloc)
}

/// What a row of the table shows.
pub fn see_row(alloc: Global, written: &[Written], table: &Name, row: &Key) -> Result<Views, Memory>
    ensures { IfOk result (λ views. views ≡ see (row_edits table.now row.now written.now)) }
{
    cells_of(alloc, written, table)?.get(alloc, row)
}
