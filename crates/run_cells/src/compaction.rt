ghost use Rattle.std.specs.Prelude.{◌≡◌, true, IfOk};
ghost use Rattle.store_file.specs.Order.{are_in_order};
ghost use Rattle.run_cells.specs.Outdone.{compacted};

use crate::outdone::is_outdone;
use rep_types::{Duplicate, Memory};
use std::alloc::Global;
use store_file::{RunCell, RunCells};

/// The same cell once more.
pub fn copy_of(alloc: Global, cell: &RunCell) -> Result<RunCell, Memory>
    ensures { IfOk result (λ copy. copy ≡ cell.now) }
{
    Ok(RunCell {
        row: cell.row.copy(alloc)?,
        family: cell.family.copy(alloc)?,
        qualifier: cell.qualifier.copy(alloc)?,
        stamp: cell.stamp,
        kind: cell.kind.copy(alloc)?,
        rank: cell.rank,
    })
}

/// The cells that count: of each column the greatest delete and the put that is shown. Only these are copied; takes the time of
/// the cells.
pub fn compact(alloc: Global, cells: &[RunCell]) -> Result<RunCells, Memory>
    requires { are_in_order cells.now ≡ true }
    ensures { IfOk result (λ kept. kept ≡ compacted cells.now) }
{
    let mut kept = RunCells::new(alloc);
    for (at, cell) in cells.iter().enumerate() {
        if !is_outdone(cells, at) {
            kept.push(copy_of(alloc, cell)?)?;
        }
    }
    Ok(kept)
}
