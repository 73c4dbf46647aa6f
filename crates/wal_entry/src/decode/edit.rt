ghost use Rattle.wal_entry.specs.Judging.{judge};
ghost use Rattle.wal_entry.specs.Frame.{cell_kind, cell, heading};
ghost use Rattle.wal_entry.specs.Steps.{place, Reads};

use super::cursor::{Cursor, Stop};
use super::item::number;
use super::text::{key_of, name_of, qualifier_of, value_of};
use rep_types::{Cell, CellKind, Key, Name};
use std::alloc::Global;

/// The table and row of an edit, and the number of its cells.
#[derive(Drop)]
pub struct Heading {
    pub table: Name,
    pub row: Key,
    pub count: u64,
}

#[tactic(auto, unfolding(crate::specs::Frame::cell_kind))]
fn cell_kind_of<'a>(alloc: Global, here: Cursor<'a>) -> Result<(CellKind, Cursor<'a>), Stop>
    ensures { Reads (λ x. x) result (judge cell_kind (place here.entry)) }
{
    let (kind, next) = number(here, 10, 1, 1, 2)?;
    if kind == 1 {
        let (value, next) = value_of(alloc, next)?;
        Ok((CellKind::Put(value), next))
    } else {
        Ok((CellKind::Erase, next))
    }
}

#[tactic(auto, unfolding(crate::specs::Frame::cell))]
pub fn cell_of<'a>(
    alloc: Global,
    here: Cursor<'a>,
    earlier: &[Cell],
) -> Result<(Cell, Cursor<'a>), Stop>
    ensures { Reads (λ x. x) result (judge (cell earlier.now) (place here.entry)) }
{
    let (family, next) = name_of(alloc, here)?;
    let (qualifier, next) = qualifier_of(alloc, next, earlier, &family)?;
    let (stamp, next) = number(next, 10, 8, 0, u64::MAX)?;
    let (kind, next) = cell_kind_of(alloc, next)?;
    let cell = Cell {
        family,
        qualifier,
        stamp,
        kind,
    };
    Ok((cell, next))
}

// What stands before the cells of an edit.
#[tactic(auto, unfolding(crate::specs::Frame::heading))]
pub fn heading_of<'a>(alloc: Global, here: Cursor<'a>) -> Result<(Heading, Cursor<'a>), Stop>
    ensures { Reads (λ x. x) result (judge heading (place here.entry)) }
{
    let (table, next) = name_of(alloc, here)?;
    let (row, next) = key_of(alloc, next)?;
    let (count, next) = number(next, 10, 1, 1, 64)?;
    Ok((Heading { table, row, count }, next))
}
