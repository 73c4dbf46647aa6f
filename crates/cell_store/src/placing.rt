// New cells, put at their places among cells in order.
ghost use Rattle.std.specs.Prelude.{◌≡◌, ◌+◌, ◌≤◌, ◌<◌, ◌||◌, true, Bool, IfOk, IfErr, length, insert, map, vec_len, vec_capacity};
ghost use Rattle.std.specs.List.{list_any};
ghost use Rattle.std.specs.List.Sorted.{IsSearchInRange};
ghost use Rattle.store_file.specs.declared.cell.RunCell.{RunCell};
ghost use Rattle.store_file.specs.Order.{are_in_order};
ghost use Rattle.cell_store.specs.Cells.{AreApart, ranked, edit_cells};
ghost use Rattle.cell_store.specs.Steps.{placed};

use rep_types::{Cell, Duplicate, Edit, Key, Memory, Rank};
use std::alloc::Global;
use store_file::RunCell;

fn ranked(alloc: Global, row: &Key, rank: Rank, cell: &Cell) -> Result<RunCell, Memory>
    ensures { IfOk result (λ made. made ≡ ranked row.now rank cell.now) }
{
    Ok(RunCell {
        row: row.copy(alloc)?,
        family: cell.family.copy(alloc)?,
        qualifier: cell.qualifier.copy(alloc)?,
        stamp: cell.stamp,
        kind: cell.kind.copy(alloc)?,
        rank,
    })
}

/// The cells of an edit, each with the rank.
pub fn edit_cells(alloc: Global, edit: &Edit, rank: Rank) -> Result<Vec<RunCell>, Memory>
    ensures { IfOk result (λ cells. cells.items ≡ edit_cells edit.now rank) }
{
    let mut cells = Vec::new(alloc);
    for cell in edit.cells().as_slice() {
        cells.push(ranked(alloc, edit.row(), rank, cell)?)?;
    }
    Ok(cells)
}

// Where a cell of that place in the order stands, or where the new one goes.
fn place(cells: &[RunCell], new: &RunCell) -> Result<usize, usize>
    requires { are_in_order cells.now ≡ true }
    ensures bound { IsSearchInRange result (length cells.now) }
    ensures stands { IfOk result (λ at. placed new.now cells.now ≡ cells.now) }
    ensures absent { IfErr result (λ at. placed new.now cells.now ≡ insert cells.now at new.now) }
{
    cells.binary_search_by(|cell| cell.order(new))
}

fn add(cells: &mut Vec<RunCell>, new: RunCell)
    requires order { are_in_order cells.old.items ≡ true }
    requires room { vec_len cells.old < vec_capacity cells.old }
    ensures items { cells.new.items ≡ placed new cells.old.items }
    ensures len { vec_len cells.new ≤ vec_len cells.old + 1 }
    ensures capacity { vec_capacity cells.old ≤ vec_capacity cells.new }
{
    if let Err(at) = place(cells, &new) {
        let _ = cells.insert(at, new);
    }
}

/// Puts new cells at their places; takes no memory. Each takes about log n comparisons among n cells, and a move of what stands
/// behind its place.
pub fn add_all(cells: &mut Vec<RunCell>, news: Vec<RunCell>)
    requires order { are_in_order cells.old.items ≡ true }
    requires room { vec_len cells.old + vec_len news ≤ vec_capacity cells.old }
    requires apart { AreApart (λ test. list_any test cells.old.items || list_any test news.items) }
    ensures order { are_in_order cells.new.items ≡ true }
    ensures cells { (test : RunCell → Bool) → list_any test cells.new.items ≡ (list_any test cells.old.items || list_any test news.items) }
{
    for new in news {
        add(cells, new);
    }
}
