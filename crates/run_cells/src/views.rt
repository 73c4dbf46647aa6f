ghost use Rattle.std.specs.Prelude.{◌≡◌, [], ◌∷◌, ◌++◌, true, IfOk, OnOk};
ghost use Rattle.std.specs.List.{filter_map};
ghost use Rattle.store_file.specs.Order.{are_in_order};
ghost use Rattle.run_cells.specs.Outdone.{view_of_put, shown};

use crate::outdone::is_outdone;
use rep_types::{CellKind, CellView, Duplicate, Memory, Views};
use std::alloc::Global;
use store_file::RunCell;

// Adds what the cell shows, if it is a put.
fn push_view(alloc: Global, views: &mut Views, cell: &RunCell) -> Result<(), Memory>
    ensures { OnOk result (views.new ≡ views.old ++ filter_map view_of_put (cell.now ∷ [])) }
{
    match &cell.kind {
        CellKind::Put(value) => views.push(CellView {
            row: cell.row.copy(alloc)?,
            family: cell.family.copy(alloc)?,
            qualifier: cell.qualifier.copy(alloc)?,
            stamp: cell.stamp,
            value: value.copy(alloc)?,
        }),
        CellKind::Erase => Ok(()),
    }
}

/// What the cells show, by row, family and qualifier. Only what is shown is copied; takes the time of the cells.
pub fn show(alloc: Global, cells: &[RunCell]) -> Result<Views, Memory>
    requires { are_in_order cells.now ≡ true }
    ensures { IfOk result (λ views. views ≡ shown cells.now) }
{
    let mut views = Views::new(alloc);
    for (at, cell) in cells.iter().enumerate() {
        if !is_outdone(cells, at) {
            push_view(alloc, &mut views, cell)?;
        }
    }
    Ok(views)
}
