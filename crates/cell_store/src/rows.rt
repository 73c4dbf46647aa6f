// Rows that are asked for: one, a range of them, or all.
ghost use Rattle.std.specs.Prelude.{ℕ, ◌≡◌, Bool, List};
ghost use Rattle.std.specs.Str.{bytes_eq};
ghost use Rattle.rep_types.specs.Range.{range_holds};
ghost use Rattle.cell_store.specs.Reading.{every_row};

use rep_types::{Key, KeyRange};

pub trait Rows {
    /// Which rows these are.
    ghost wants: { Self → List ℕ → Bool };

    fn want(&self, row: &Key) -> bool
        ensures { result ≡ wants self.now row.now };
}

impl Rows for Key {
    ghost wants = { bytes_eq };

    fn want(&self, row: &Key) -> bool {
        self == row
    }
}

impl Rows for KeyRange {
    ghost wants = { range_holds };

    fn want(&self, row: &Key) -> bool {
        self.holds(row)
    }
}

pub struct EveryRow;

impl Rows for EveryRow {
    ghost wants = { λ _. every_row };

    fn want(&self, _row: &Key) -> bool {
        true
    }
}
