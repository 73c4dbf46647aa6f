ghost use Rattle.std.specs.Prelude.{◌≡◌, ◌<◌, ◌^◌, List, true, length, All};
ghost use Rattle.store_file.specs.declared.cell.RunCell.{RunCell};
ghost use Rattle.store_file.specs.Order.{are_in_order};
ghost use Rattle.store_file.specs.Run.{Run, verdict};
ghost use Rattle.store_file.specs.Spelling.{IsShort, IsTypedCell, run_spelling};

/// A run read is the run written.
pub fn runs_read_back()
    ensures { (cells : List RunCell) → are_in_order cells ≡ true → All IsTypedCell cells → All (λ c. IsShort c.kind) cells
        → length cells < 2 ^ 64 → verdict (run_spelling cells) ≡ Run cells }
{}
