// The cells of runs that count, and a new run of them.
ghost use Rattle.std.specs.Prelude.{◌≡◌, [], ◌∷◌, ◌<◌, ◌^◌, true, length, vec_len, vec_capacity, All, IfOk, IfErr, OnOk};
ghost use Rattle.store_file.specs.Order.{are_in_order};
ghost use Rattle.store_file.specs.Spelling.{IsShort, IsTypedCell};
ghost use Rattle.store_file.specs.Stored.{run, IsStopped, Tells, WritesRun};
ghost use Rattle.wal_roll.specs.Steps.{OnlyFile};
ghost use Rattle.cell_store.specs.Cells.{any_named, AreApart, IsThere};
ghost use Rattle.cell_store.specs.Compaction.{runs_of, IsWritten, Refuses, Survive};
ghost use Rattle.cell_store.specs.Writing.{all_rows};

use crate::NamedRun;
use crate::gathering::gather;
use crate::rows::EveryRow;
use rep_types::{Memory, Text};
use rep_vault::Vault;
use run_cells::compact;
use std::alloc::Global;
use store_file::{RunCell, RunCells, RunError, write_run};

/// Of the cells of all runs, within their ranges, those that count among them. Each run is read once; only what counts is copied.
pub fn survivors<V: Vault>(
    alloc: Global,
    vault: &mut V,
    runs: &[NamedRun],
) -> Result<RunCells, RunError>
    requires there { All (IsThere (V.contents vault.old)) runs.now }
    requires apart { AreApart (any_named (V.contents vault.old) runs.now) }
    ensures does { IfOk result (Survive (V.contents vault.old) runs.now) }
    ensures order { IfOk result (λ kept. are_in_order kept ≡ true) }
    ensures typed { IfOk result (λ kept. All IsTypedCell kept) }
    ensures short { IfOk result (λ kept. All (λ c. IsShort c.kind) kept) }
    ensures stopped { IfErr result IsStopped }
    ensures kept { V.contents vault.new ≡ V.contents vault.old }
    ensures tells { Tells (V.tally vault.old) (V.tally vault.new) result }
{
    let none = Vec::new(alloc);
    let all = gather(alloc, vault, &none, runs, &EveryRow)?;
    Ok(compact(alloc, all.as_slice())?)
}

// Room for one.
fn room_for_one(alloc: Global) -> Result<Vec<NamedRun>, Memory>
    ensures items { IfOk result (λ runs. runs.items ≡ []) }
    ensures room { IfOk result (λ runs. vec_len runs < vec_capacity runs) }
{
    let mut runs = Vec::new(alloc);
    runs.reserve(1)?;
    Ok(runs)
}

// Writes the cells, of which there is one at least, as a new run, and names it.
fn write_some<V: Vault>(
    alloc: Global,
    vault: &mut V,
    name: Text,
    cells: &[RunCell],
) -> Result<Vec<NamedRun>, RunError>
    requires order { are_in_order cells.now ≡ true }
    requires values { All (λ c. IsShort c.kind) cells.now }
    ensures named { IfOk result (λ runs. runs.items ≡ record { name = name; range = all_rows } ∷ []) }
    ensures does { WritesRun name cells.now (V.contents vault.old) (V.contents vault.new) result }
    ensures frame { OnlyFile run name (V.contents vault.old) (V.contents vault.new) }
    ensures tells { Tells (V.tally vault.old) (V.tally vault.new) result }
{
    let mut runs = room_for_one(alloc)?;
    write_run(alloc, vault, name.as_str(), cells)?;
    let _ = runs.push(NamedRun::whole(name));
    Ok(runs)
}

/// Writes the cells as a new run, and names it; where there is no cell nothing is written, and nothing named.
pub fn write_survivors<V: Vault>(
    alloc: Global,
    vault: &mut V,
    name: Text,
    cells: &[RunCell],
) -> Result<Vec<NamedRun>, RunError>
    requires order { are_in_order cells.now ≡ true }
    requires values { All (λ c. IsShort c.kind) cells.now }
    ensures few { length cells.now < 2 ^ 64 }
    ensures named { IfOk result (λ runs. runs.items ≡ runs_of name cells.now) }
    ensures written { OnOk result (IsWritten name cells.now (V.contents vault.old) (V.contents vault.new)) }
    ensures refused { IfErr result (Refuses name (V.contents vault.old) (V.contents vault.new)) }
    ensures frame { OnlyFile run name (V.contents vault.old) (V.contents vault.new) }
    ensures tells { Tells (V.tally vault.old) (V.tally vault.new) result }
{
    if cells.is_empty() {
        return Ok(Vec::new(alloc));
    }
    write_some(alloc, vault, name, cells)
}
