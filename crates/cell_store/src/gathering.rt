// The cells of wanted rows, of memory and of runs.
ghost use Rattle.std.specs.Prelude.{◌≡◌, true, IfOk, IfErr, OnOk, All};
ghost use Rattle.store_file.specs.Order.{are_in_order};
ghost use Rattle.store_file.specs.Stored.{IsStopped, Tells};
ghost use Rattle.cell_store.specs.Cells.{named_cells, any_cell, AreApart, IsThere};
ghost use Rattle.cell_store.specs.Reading.{AreWanted};
ghost use Rattle.cell_store.specs.Steps.{AreHeld, of_rows};

use crate::NamedRun;
use crate::rows::Rows;
use rep_types::Memory;
use rep_vault::Vault;
use run_cells::{copy_of, cut, merge};
use std::alloc::Global;
use store_file::{RunCell, RunCells, RunError, read_run};

fn copy_rows<R: Rows>(alloc: Global, cells: &[RunCell], rows: &R) -> Result<RunCells, Memory>
    ensures { IfOk result (λ kept. kept ≡ of_rows (R.wants rows.now) cells.now) }
{
    let mut kept = RunCells::new(alloc);
    for cell in cells {
        if rows.want(&cell.row) {
            kept.push(copy_of(alloc, cell)?)?;
        }
    }
    Ok(kept)
}

fn cut_rows<R: Rows>(cells: RunCells, rows: &R) -> RunCells
    ensures { result ≡ of_rows (R.wants rows.now) cells }
{
    let mut cells = cells.into_vec();
    cells.retain(|cell| rows.want(&cell.row));
    RunCells::from_vec(cells)
}

// The cells of wanted rows of a run that stands, within its range.
fn read_rows<R: Rows, V: Vault>(
    alloc: Global,
    vault: &mut V,
    run: &NamedRun,
    rows: &R,
) -> Result<RunCells, RunError>
    requires { IsThere (V.contents vault.old) run.now }
    ensures does { IfOk result (λ part. part ≡ of_rows (R.wants rows.now) (named_cells (V.contents vault.old) run.now)) }
    ensures order { IfOk result (λ part. are_in_order part ≡ true) }
    ensures held { OnOk result (AreHeld (V.contents vault.old) run.now) }
    ensures stopped { IfErr result IsStopped }
    ensures kept { V.contents vault.new ≡ V.contents vault.old }
    ensures tells { Tells (V.tally vault.old) (V.tally vault.new) result }
{
    let cells = read_run(alloc, vault, run.name.as_str())?;
    Ok(cut_rows(cut(cells, &run.range), rows))
}

/// The cells of wanted rows, in order: those in memory are copied, and each run is read once. Takes the time of all runs' cells once
/// for each run, and of memory's once.
pub fn gather<R: Rows, V: Vault>(
    alloc: Global,
    vault: &mut V,
    memory: &[RunCell],
    runs: &[NamedRun],
    rows: &R,
) -> Result<RunCells, RunError>
    requires order { are_in_order memory.now ≡ true }
    requires there { All (IsThere (V.contents vault.old)) runs.now }
    requires apart { AreApart (any_cell (V.contents vault.old) (record { memory = memory.now; runs = runs.now })) }
    ensures does { IfOk result (AreWanted (R.wants rows.now) (any_cell (V.contents vault.old) (record { memory = memory.now; runs = runs.now }))) }
    ensures held { OnOk result (All (AreHeld (V.contents vault.old)) runs.now) }
    ensures stopped { IfErr result IsStopped }
    ensures kept { V.contents vault.new ≡ V.contents vault.old }
    ensures tells { Tells (V.tally vault.old) (V.tally vault.new) result }
{
    let mut all = copy_rows(alloc, memory, rows)?;
    for run in runs {
        let part = read_rows(alloc, vault, run, rows)?;
        all = merge(alloc, all, part)?;
    }
    Ok(all)
}
