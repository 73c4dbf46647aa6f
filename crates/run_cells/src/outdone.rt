ghost use Rattle.std.specs.Prelude.{◌≡◌, ◌<◌, true, Some, length, reverse, find, slice_get};
ghost use Rattle.std.specs.List.{list_any, take_while};
ghost use Rattle.std.specs.Option.{option_copied};
ghost use Rattle.store_file.specs.declared.cell.RunCell.{RunCell};
ghost use Rattle.store_file.specs.Order.{are_in_order};
ghost use Rattle.store_file.specs.Run.{last_of};
ghost use Rattle.run_cells.specs.Outdone.{is_at, is_twin, is_delete, is_outdone};
ghost use Rattle.run_cells.specs.Steps.{has_place};

use rep_types::CellKind;
use store_file::RunCell;

fn is_at(one: &RunCell, other: &RunCell) -> bool
    ensures { result ≡ is_at one.now other.now }
{
    one.place_order(other).is_eq()
}

fn is_twin(one: &RunCell, other: &RunCell) -> bool
    ensures { result ≡ is_twin one.now other.now }
{
    is_at(one, other) && one.stamp == other.stamp
}

fn is_delete(cell: &RunCell) -> bool
    ensures { result ≡ is_delete cell.now }
{
    match &cell.kind {
        CellKind::Put(_) => false,
        CellKind::Erase => true,
    }
}

// The last of the cells before it is of its column.
fn follows_its_place(before: &[RunCell], cell: &RunCell) -> bool
    ensures { result ≡ has_place cell.now (last_of before.now) }
{
    match before.last() {
        Some(last) => is_at(cell, last),
        None => false,
    }
}

fn last_delete(cells: &[RunCell]) -> Option<&RunCell>
    ensures { option_copied result ≡ find is_delete (reverse cells.now) }
{
    cells.iter().rev().find(|cell| is_delete(cell))
}

// The last delete before it is of its column.
fn follows_a_delete(before: &[RunCell], cell: &RunCell) -> bool
    ensures { result ≡ has_place cell.now (find is_delete (reverse before.now)) }
{
    match last_delete(before) {
        Some(last) => is_at(cell, last),
        None => false,
    }
}

// A delete of its column and timestamp comes behind it.
fn is_deleted(cell: &RunCell, after: &[RunCell]) -> bool
    ensures { result ≡ list_any is_delete (take_while (is_twin cell.now) after.now) }
{
    after
        .iter()
        .take_while(|other| is_twin(cell, other))
        .any(|other| is_delete(other))
}

/// Whether one of the cells outdoes the one at this place. Over all places it looks at each cell a few times: a put looks for a
/// delete among its column's cells of one timestamp, only if it is the column's first; a delete looks back to the last delete.
pub fn is_outdone(cells: &[RunCell], at: usize) -> bool
    requires order { are_in_order cells.now ≡ true }
    requires within { at < length cells.now }
    ensures { (c : RunCell) → slice_get cells.now at ≡ Some c → result ≡ is_outdone cells.now c }
{
    let cell = &cells[at];
    match &cell.kind {
        CellKind::Put(_) => {
            follows_its_place(&cells[..at], cell) || is_deleted(cell, &cells[at + 1..])
        }
        CellKind::Erase => follows_a_delete(&cells[..at], cell),
    }
}
