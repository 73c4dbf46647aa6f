ghost use Rattle.std.specs.Prelude.{◌≡◌};
ghost use Rattle.store_file.specs.Order.{place_order, age_order, run_order};

use rep_types::{CellKind, Items, Key, Name, Rank};
use std::cmp::Ordering;

/// A put or a delete of a cell, with its rank among the versions of that cell.
#[derive(Drop)]
pub struct RunCell {
    pub row: Key,
    pub family: Name,
    pub qualifier: Name,
    pub stamp: u64,
    pub kind: CellKind,
    pub rank: Rank,
}

pub type RunCells = Items<RunCell>;

impl RunCell {
    /// By row, family and qualifier.
    pub fn place_order(&self, other: &RunCell) -> Ordering
        ensures { result ≡ place_order self.now other.now }
    {
        match self.row.cmp(&other.row) {
            Ordering::Equal => match self.family.cmp(&other.family) {
                Ordering::Equal => self.qualifier.cmp(&other.qualifier),
                unlike => unlike,
            },
            unlike => unlike,
        }
    }

    // By timestamp and by rank; the greater comes first.
    fn age_order(&self, other: &RunCell) -> Ordering
        ensures { result ≡ age_order self.now other.now }
    {
        match other.stamp.cmp(&self.stamp) {
            Ordering::Equal => other.rank.cmp(&self.rank),
            unlike => unlike,
        }
    }

    /// The order in a run: by row, family and qualifier, then by timestamp and by rank, of which the greater comes first.
    pub fn order(&self, other: &RunCell) -> Ordering
        ensures { result ≡ run_order self.now other.now }
    {
        match self.place_order(other) {
            Ordering::Equal => self.age_order(other),
            unlike => unlike,
        }
    }
}
