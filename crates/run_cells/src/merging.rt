ghost use Rattle.std.specs.Prelude.{◌≡◌, true, IfOk};
ghost use Rattle.store_file.specs.Order.{are_in_order};
ghost use Rattle.run_cells.specs.Merged.{Agree, IsMerged, TakesFirst, turn};

use rep_types::Memory;
use std::alloc::Global;
use std::cmp::Ordering;
use std::collections::VecDeque;
use store_file::{RunCell, RunCells};

// Less where the left's cell is next, Greater where the right's is, Equal where both are at one place.
fn turn(left: &VecDeque<RunCell>, right: &VecDeque<RunCell>) -> Ordering
    ensures { result ≡ turn left.now.items right.now.items }
{
    let Some(one) = left.front() else {
        return Ordering::Greater;
    };
    let Some(other) = right.front() else {
        return Ordering::Less;
    };
    one.order(other)
}

// Takes the first cell of both; of two at one place it drops the right one.
fn take_first(left: &mut VecDeque<RunCell>, right: &mut VecDeque<RunCell>) -> Option<RunCell>
    ensures { TakesFirst left.old.items right.old.items result left.new.items right.new.items }
{
    match turn(left, right) {
        Ordering::Less => left.pop_front(),
        Ordering::Greater => right.pop_front(),
        Ordering::Equal => {
            let _ = right.pop_front();
            left.pop_front()
        }
    }
}

/// The cells of both lists, in order. No cell is copied; takes the time of both and the memory of the new list. A cell that stands
/// in both comes once.
pub fn merge(alloc: Global, left: RunCells, right: RunCells) -> Result<RunCells, Memory>
    requires left { are_in_order left ≡ true }
    requires right { are_in_order right ≡ true }
    requires agree { Agree left right }
    ensures { IfOk result (λ all. IsMerged left right all) }
{
    let mut all = RunCells::new(alloc);
    let mut left = VecDeque::from_vec(left.into_vec());
    let mut right = VecDeque::from_vec(right.into_vec());
    while let Some(cell) = take_first(&mut left, &mut right) {
        all.push(cell)?;
    }
    Ok(all)
}
