ghost use Rattle.std.specs.Prelude.{◌≡◌, ◌+◌, ◌<◌, None, length, OnOk, OnErr};
ghost use Rattle.rep_types.specs.Edit.{edit_refusal};
ghost use Rattle.rep_types.specs.declared.entry.EntryKind.TheVariants as kind;
ghost use Rattle.wal_entry.specs.Frame.{entry_of, verdict};
ghost use Rattle.wal_entry.specs.Resumed.{edit_with, place_in, IsBegun};
ghost use Rattle.wal_entry.specs.Steps.{place, StopsIfErr, Ends};

use super::cursor::{Cursor, Stop};
use super::edit::{Heading, cell_of};
use super::frame::{Fields, entry_of, padding_of};
use rep_types::{Cells, Edit, Entry, EntryKind};
use std::alloc::Global;

/// What was judged of a write's frame: all before the cells, and first ones of these. They end at a
/// place of the frame.
#[derive(Drop)]
pub struct Begun {
    pub at: u32,
    pub end: u32,
    pub fields: Fields,
    pub heading: Heading,
    pub cells: Cells,
}

impl Begun {
    fn here<'a>(&self, bytes: &'a [u8]) -> Cursor<'a>
        requires { IsBegun self.now bytes.now }
        ensures { place result ≡ place_in self.now bytes.now }
    {
        Cursor {
            at: self.at,
            end: self.end,
            rest: &bytes[self.at as usize..],
        }
    }

    // Judges one more cell.
    fn judge_cell(&mut self, alloc: Global, bytes: &[u8]) -> Result<(), Stop>
        requires begun { IsBegun self.old bytes.now }
        requires more { length self.old.cells < self.old.heading.count }
        ensures begun { IsBegun self.new bytes.now }
        ensures one { OnOk result (length self.new.cells ≡ length self.old.cells + 1) }
        ensures heading { self.new.heading ≡ self.old.heading }
        ensures stops { StopsIfErr result (verdict bytes.now) }
    {
        let here = self.here(bytes);
        let (cell, next) = cell_of(alloc, here, self.cells.as_slice())?;
        self.cells.push(cell)?;
        self.at = next.at;
        Ok(())
    }

    /// Judges the cells and the padding that are left: the place behind them.
    pub fn judge(&mut self, alloc: Global, bytes: &[u8]) -> Result<u32, Stop>
        requires { IsBegun self.old bytes.now }
        ensures begun { IsBegun self.new bytes.now }
        ensures ends { Ends result (entry_of self.new.fields (kind.Write (edit_with self.new self.new.cells))) (verdict bytes.now) }
    {
        for _ in self.cells.len() as u64..self.heading.count {
            self.judge_cell(alloc, bytes)?;
        }
        let ((), next) = padding_of(self.here(bytes))?;
        Ok(next.at)
    }

    pub fn into_entry(self) -> Entry
        requires { edit_refusal (edit_with self self.cells) ≡ None }
        ensures { result ≡ entry_of self.fields (kind.Write (edit_with self self.cells)) }
    {
        match Edit::new(self.heading.table, self.heading.row, self.cells) {
            Ok(edit) => entry_of(self.fields, EntryKind::Write(edit)),
            Err(_) => unreachable!(),
        }
    }
}
