ghost use Rattle.std.specs.Prelude.{◌≡◌, [], ◌∷◌, ◌++◌, filter, IfOk, OnOk, OnErr};
ghost use Rattle.std.specs.Str.{bytes_eq};
ghost use Rattle.rep_model.specs.See.{see};

use crate::applied::Applied;
use crate::entry::{Entry, entries_of};
use crate::show::show;
use crate::sorted::{add_all, of_row};
use rep_types::{Edit, Key, Memory, Views};
use std::alloc::Global;
use std::marker::Model;

/// The store of one table, seen as the list of the edits that were applied, in order. It keeps of
/// each column (a row, a family and a qualifier) that was ever written the greatest timestamp of a
/// delete, and the put with the greatest timestamp, among equals the last; and no history.
#[derive(Drop)]
pub struct CellStore {
    entries: Vec<Entry>,
    applied: Applied,
}

impl Model for CellStore {
    ghost use Rattle.std.specs.Prelude.{◌≡◌, List};
    ghost use Rattle.rep_types.specs.Edit.{EditValue};
    ghost use Rattle.table_cells.specs.History.{edits_of};
    ghost use Rattle.table_cells.specs.Entries.{kept};

    ghost Value = { List EditValue };

    ghost view = { λ store. edits_of store.applied };

    ghost invariant = { λ store. store.entries.items ≡ kept (edits_of store.applied) };
}

impl CellStore {
    /// Nothing was applied; takes no memory.
    pub fn new(alloc: Global) -> CellStore
        ensures { result ≡ [] }
    {
        CellStore {
            entries: Vec::new(alloc),
            applied: Applied::Nothing,
        }
    }

    /// Applies all cells of the edit, or none. Of n columns that were ever written each cell takes
    /// about log n comparisons, and one move of what stands behind its column if that is new.
    pub fn apply(&mut self, alloc: Global, edit: &Edit) -> Result<(), Memory>
        ensures ok { OnOk result (self.new ≡ self.old ++ edit.now ∷ []) }
        ensures err { OnErr result (self.new ≡ self.old) }
    {
        let news = entries_of(alloc, edit.row(), edit.cells().as_slice())?;
        self.entries.reserve(news.len())?;
        add_all(&mut self.entries, news);
        self.applied.push(edit);
        Ok(())
    }

    /// What the edits of a row show, as `see` says, by family and qualifier. Takes about log n
    /// comparisons, and the time and memory of the row's columns.
    pub fn get(&self, alloc: Global, row: &Key) -> Result<Views, Memory>
        ensures { IfOk result (λ views. views ≡ see (filter (λ edit. bytes_eq edit.row row.now) self.now)) }
    {
        show(alloc, of_row(&self.entries, row))
    }

    /// What all edits show, as `see` says, by row, family and qualifier. Takes the time and memory of
    /// the table's columns.
    pub fn scan(&self, alloc: Global) -> Result<Views, Memory>
        ensures { IfOk result (λ views. views ≡ see self.now) }
    {
        show(alloc, &self.entries)
    }
}
