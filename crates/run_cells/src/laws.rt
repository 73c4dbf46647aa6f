ghost use Rattle.std.specs.Prelude.{◌≡◌, ◌++◌, Bool, true, List, filter};
ghost use Rattle.store_file.specs.declared.cell.RunCell.{RunCell};
ghost use Rattle.store_file.specs.Order.{are_in_order};
ghost use Rattle.run_cells.specs.Outdone.{is_outdone, compacted, shown};

/// What counts of some cells shows what they show.
pub fn compaction_shows_the_same()
    ensures { (cells : List RunCell) → shown (compacted cells) ≡ shown cells }
{}

/// Beside any other cells, what counts of some outdoes what they outdo.
pub fn compaction_outdoes_the_same()
    ensures { (cells others : List RunCell) (c : RunCell) → is_outdone (compacted cells ++ others) c ≡ is_outdone (cells ++ others) c }
{}

/// A part of cells in order is in order: what counts of them, or what a range holds.
pub fn parts_are_in_order()
    ensures { (test : RunCell → Bool) (cells : List RunCell) → are_in_order cells ≡ true → are_in_order (filter test cells) ≡ true }
{}
