ghost use Rattle.std.specs.Prelude.{◌≡◌, [], ◌∷◌, ◌++◌, ◌||◌, true, All, Bool, IfOk, IfErr, OnOk, OnErr, ◌<◌, ◌^◌, length, vec_len, vec_capacity};
ghost use Rattle.std.specs.List.{list_any};
ghost use Rattle.std.specs.Str.{bytes_eq};
ghost use Rattle.rep_types.specs.Range.{range_holds};
ghost use Rattle.store_file.specs.declared.cell.RunCell.{RunCell};
ghost use Rattle.store_file.specs.Order.{are_in_order};
ghost use Rattle.store_file.specs.Spelling.{IsShort, IsTypedCell};
ghost use Rattle.store_file.specs.Stored.{run, IsStopped, Tells, WritesRun};
ghost use Rattle.wal_roll.specs.Steps.{OnlyFile};
ghost use Rattle.cell_store.specs.Cells.{any_cell, any_new, AreApart, IsThere};
ghost use Rattle.cell_store.specs.Compaction.{IsCompacted, Refuses, ShowAlike};
ghost use Rattle.cell_store.specs.Reading.{Shows};
ghost use Rattle.cell_store.specs.Writing.{flushed};

use crate::NamedRun;
use crate::compacting::{survivors, write_survivors};
use crate::gathering::gather;
use crate::placing::{add_all, edit_cells};
use rep_types::{Edit, Key, KeyRange, Memory, Rank, Text, Views};
use rep_vault::Vault;
use run_cells::show;
use std::alloc::Global;
use std::marker::Model;
use store_file::{RunCell, RunError, write_run};

/// The cells of one region: those in memory, in the order of a run, and the runs that it names, each with the rows of it that count.
#[derive(Drop)]
pub struct CellStore {
    cells: Vec<RunCell>,
    runs: Vec<NamedRun>,
}

impl Model for CellStore {
    ghost use Rattle.std.specs.Prelude.{◌≡◌, true};
    ghost use Rattle.store_file.specs.Order.{are_in_order};
    ghost use Rattle.cell_store.specs.Cells.{StoreValue};

    ghost Value = { StoreValue };

    ghost view = { λ store. record { memory = store.cells.items; runs = store.runs.items } };

    ghost invariant = { λ store. are_in_order store.cells.items ≡ true };
}

// Room for one more.
fn make_room(runs: &mut Vec<NamedRun>) -> Result<(), Memory>
    ensures items { runs.new.items ≡ runs.old.items }
    ensures room { OnOk result (vec_len runs.new < vec_capacity runs.new) }
{
    runs.reserve(1)?;
    Ok(())
}

impl CellStore {
    /// Has no cells and names no run; takes no memory.
    pub fn new(alloc: Global) -> CellStore
        ensures { result ≡ record { memory = []; runs = [] } }
    {
        CellStore {
            cells: Vec::new(alloc),
            runs: Vec::new(alloc),
        }
    }

    /// Puts all cells of the edit into memory, each with the rank, or none. A rank above those of all earlier edits of the same
    /// columns meets the condition. Each cell takes about log n comparisons among n cells, and a move of what stands behind it.
    pub fn apply(&mut self, alloc: Global, edit: &Edit, rank: Rank) -> Result<(), Memory>
        requires apart { AreApart (any_new self.old.memory edit.now rank) }
        ensures added { OnOk result ((test : RunCell → Bool) → list_any test self.new.memory ≡ any_new self.old.memory edit.now rank test) }
        ensures runs { self.new.runs ≡ self.old.runs }
        ensures err { OnErr result (self.new ≡ self.old) }
    {
        let news = edit_cells(alloc, edit, rank)?;
        self.cells.reserve(news.len())?;
        add_all(&mut self.cells, news);
        Ok(())
    }

    /// Names a run, of which the rows within the range count; its file isn't touched.
    pub fn adopt(&mut self, name: Text, range: KeyRange) -> Result<(), Memory>
        ensures named { OnOk result (self.new.runs ≡ self.old.runs ++ record { name = name; range = range } ∷ []) }
        ensures memory { self.new.memory ≡ self.old.memory }
        ensures err { OnErr result (self.new ≡ self.old) }
    {
        self.runs.push(NamedRun { name, range })?;
        Ok(())
    }

    /// What the cells of a row show. Each run is read once.
    pub fn get<V: Vault>(&self, alloc: Global, vault: &mut V, row: &Key) -> Result<Views, RunError>
        requires there { All (IsThere (V.contents vault.old)) self.now.runs }
        requires apart { AreApart (any_cell (V.contents vault.old) self.now) }
        ensures shows { IfOk result (Shows (bytes_eq row.now) (any_cell (V.contents vault.old) self.now)) }
        ensures stopped { IfErr result IsStopped }
        ensures kept { V.contents vault.new ≡ V.contents vault.old }
        ensures tells { Tells (V.tally vault.old) (V.tally vault.new) result }
    {
        let all = gather(alloc, vault, &self.cells, &self.runs, row)?;
        Ok(show(alloc, all.as_slice())?)
    }

    /// What the cells of the rows of a range show. Each run is read once.
    pub fn scan<V: Vault>(
        &self,
        alloc: Global,
        vault: &mut V,
        range: &KeyRange,
    ) -> Result<Views, RunError>
        requires there { All (IsThere (V.contents vault.old)) self.now.runs }
        requires apart { AreApart (any_cell (V.contents vault.old) self.now) }
        ensures shows { IfOk result (Shows (range_holds range.now) (any_cell (V.contents vault.old) self.now)) }
        ensures stopped { IfErr result IsStopped }
        ensures kept { V.contents vault.new ≡ V.contents vault.old }
        ensures tells { Tells (V.tally vault.old) (V.tally vault.new) result }
    {
        let all = gather(alloc, vault, &self.cells, &self.runs, range)?;
        Ok(show(alloc, all.as_slice())?)
    }

    // Writes memory's cells, names the run and empties memory.
    fn write_memory<V: Vault>(
        &mut self,
        alloc: Global,
        vault: &mut V,
        name: Text,
    ) -> Result<(), RunError>
        requires values { All (λ c. IsShort c.kind) self.old.memory }
        ensures order { are_in_order self.old.memory ≡ true }
        ensures few { length self.old.memory < 2 ^ 64 }
        ensures value { OnOk result (self.new ≡ flushed name self.old) }
        ensures err { OnErr result (self.new ≡ self.old) }
        ensures does { WritesRun name self.old.memory (V.contents vault.old) (V.contents vault.new) result }
        ensures frame { OnlyFile run name (V.contents vault.old) (V.contents vault.new) }
        ensures tells { Tells (V.tally vault.old) (V.tally vault.new) result }
    {
        make_room(&mut self.runs)?;
        write_run(alloc, vault, name.as_str(), &self.cells)?;
        let _ = self.runs.push(NamedRun::whole(name));
        self.cells = Vec::new(alloc);
        Ok(())
    }

    /// Writes memory's cells as a new run, with one append and one sync, and names it; memory is then empty, and the store's cells
    /// over the vault stay. Where it fails, memory and names stay; after a fault, or for want of memory, the file may stand, whole
    /// or in part.
    pub fn flush<V: Vault>(
        &mut self,
        alloc: Global,
        vault: &mut V,
        name: Text,
    ) -> Result<(), RunError>
        requires there { All (IsThere (V.contents vault.old)) self.old.runs }
        requires values { All (λ c. IsShort c.kind) self.old.memory }
        ensures value { OnOk result (self.new ≡ flushed name self.old) }
        ensures err { OnErr result (self.new ≡ self.old) }
        ensures does { WritesRun name self.old.memory (V.contents vault.old) (V.contents vault.new) result }
        ensures frame { OnlyFile run name (V.contents vault.old) (V.contents vault.new) }
        ensures kept { OnOk result (All IsTypedCell self.old.memory → (test : RunCell → Bool) → any_cell (V.contents vault.new) self.new test ≡ any_cell (V.contents vault.old) self.old test) }
        ensures tells { Tells (V.tally vault.old) (V.tally vault.new) result }
    {
        self.write_memory(alloc, vault, name)
    }

    /// Writes those cells of the runs that count among them as one new run, and names it alone; memory stays. Where there is none, no
    /// file is written and no run named. Each run is read once. A delete stays, since a put that it hides may stand in memory or come
    /// later. Where it fails, memory and names stay; after a fault, or for want of memory, the file may stand, whole or in part.
    pub fn compact<V: Vault>(
        &mut self,
        alloc: Global,
        vault: &mut V,
        name: Text,
    ) -> Result<(), RunError>
        requires there { All (IsThere (V.contents vault.old)) self.old.runs }
        requires apart { AreApart (any_cell (V.contents vault.old) self.old) }
        ensures does { OnOk result (IsCompacted name (V.contents vault.old) (V.contents vault.new) self.old self.new) }
        ensures err { OnErr result (self.new ≡ self.old) }
        ensures refused { IfErr result (Refuses name (V.contents vault.old) (V.contents vault.new)) }
        ensures frame { OnlyFile run name (V.contents vault.old) (V.contents vault.new) }
        ensures kept { OnOk result (ShowAlike (any_cell (V.contents vault.old) self.old) (any_cell (V.contents vault.new) self.new)) }
        ensures there { OnOk result (All (IsThere (V.contents vault.new)) self.new.runs) }
        ensures apart { OnOk result (AreApart (any_cell (V.contents vault.new) self.new)) }
        ensures tells { Tells (V.tally vault.old) (V.tally vault.new) result }
    {
        let kept = survivors(alloc, vault, &self.runs)?;
        self.runs = write_survivors(alloc, vault, name, kept.as_slice())?;
        Ok(())
    }
}
