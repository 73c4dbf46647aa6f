ghost use Rattle.std.specs.Prelude.{◌≡◌, filter};
ghost use Rattle.run_cells.specs.Merged.{is_within};

use rep_types::KeyRange;
use store_file::RunCells;

/// The cells whose rows the range holds; takes no memory, and copies none.
pub fn cut(cells: RunCells, range: &KeyRange) -> RunCells
    ensures { result ≡ filter (is_within range.now) cells }
{
    let mut cells = cells.into_vec();
    cells.retain(|cell| range.holds(&cell.row));
    RunCells::from_vec(cells)
}
