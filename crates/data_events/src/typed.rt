// What the types of cells say of their values.
ghost use Rattle.std.specs.Prelude.{All};
ghost use Rattle.wal_entry.specs.Framed.{IsTypedCell};

use rep_types::Cell;

fn cell_is_typed(cell: &Cell)
    ensures { IsTypedCell cell.now }
{
    let _family = cell.family.as_str();
    let _qualifier = cell.qualifier.as_str();
    let _stamp = cell.stamp;
}

/// That cells are as their types say. It changes nothing.
pub fn cells_are_typed(cells: &[Cell])
    ensures { All IsTypedCell cells.now }
{
    for cell in cells {
        cell_is_typed(cell);
    }
}
