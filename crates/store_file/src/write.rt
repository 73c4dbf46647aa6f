ghost use Rattle.std.specs.Prelude.{◌≡◌, ◌++◌, true, length, IfOk, OnOk, All};
ghost use Rattle.rep_vault.specs.Contents.{File, empty_file};
ghost use Rattle.rep_vault.specs.Calls.{IsOpen};
ghost use Rattle.wal_roll.specs.Steps.{OnlyFile};
ghost use Rattle.store_file.specs.Order.{are_in_order};
ghost use Rattle.store_file.specs.Spelling.{IsShort, kind_number, value_spelling, rank_spelling, place_spelling, version_spelling, cell_spelling, run_spelling};
ghost use Rattle.store_file.specs.Stored.{run, Appended, Synced, WritesRun, Tells};

use crate::{RunCell, RunError};
use rep_types::{Bytes, Call, CellKind, Memory, Rank};
use rep_vault::{Tried, Vault, VaultError, try_append, try_sync};
use std::alloc::Global;
use wal_entry::{push_name, push_text};

/// The folder of runs.
pub const FOLDER: &str = "run";

fn push_place(out: &mut Bytes, cell: &RunCell) -> Result<(), Memory>
    ensures { OnOk result (out.new ≡ out.old ++ place_spelling cell.now) }
{
    push_text(out, cell.row.as_str().as_bytes())?;
    push_name(out, cell.family.as_str())?;
    push_name(out, cell.qualifier.as_str())
}

fn kind_number(kind: &CellKind) -> u8
    ensures { result ≡ kind_number kind.now }
{
    match kind {
        CellKind::Put(_) => 1,
        CellKind::Erase => 2,
    }
}

fn push_rank(out: &mut Bytes, rank: Rank) -> Result<(), Memory>
    ensures { OnOk result (out.new ≡ out.old ++ rank_spelling rank) }
{
    out.extend_from_slice(&rank.generation.to_be_bytes())?;
    out.extend_from_slice(&rank.seq.to_be_bytes())?;
    out.extend_from_slice(&rank.replay.to_be_bytes())
}

fn push_value(out: &mut Bytes, kind: &CellKind) -> Result<(), Memory>
    ensures { OnOk result (out.new ≡ out.old ++ value_spelling kind.now) }
{
    match kind {
        CellKind::Put(value) => push_text(out, value.as_slice()),
        CellKind::Erase => Ok(()),
    }
}

fn push_version(out: &mut Bytes, cell: &RunCell) -> Result<(), Memory>
    ensures { OnOk result (out.new ≡ out.old ++ version_spelling cell.now) }
{
    out.extend_from_slice(&cell.stamp.to_be_bytes())?;
    out.push(kind_number(&cell.kind))?;
    push_rank(out, cell.rank)?;
    push_value(out, &cell.kind)
}

fn push_cell(out: &mut Bytes, cell: &RunCell) -> Result<(), Memory>
    ensures { OnOk result (out.new ≡ out.old ++ cell_spelling cell.now) }
{
    push_place(out, cell)?;
    push_version(out, cell)
}

#[tactic(auto, unfolding(crate::specs::Spelling::run_spelling))]
fn encode_run(alloc: Global, cells: &[RunCell]) -> Result<Bytes, Memory>
    ensures { IfOk result (λ bytes. bytes ≡ run_spelling cells.now) }
{
    let mut out = Bytes::new(alloc);
    out.extend_from_slice(&(cells.len() as u64).to_be_bytes())?;
    for cell in cells {
        push_cell(&mut out, cell)?;
    }
    Ok(out)
}

// Appends to an empty file.
fn append<V: Vault>(vault: &mut V, name: &str, bytes: &[u8]) -> Result<(), RunError>
    requires { IsOpen (V.contents vault.old) run name.now empty_file }
    ensures does { Appended name.now bytes.now (V.contents vault.new) result }
    ensures frame { OnlyFile run name.now (V.contents vault.old) (V.contents vault.new) }
    ensures tells { Tells (V.tally vault.old) (V.tally vault.new) result }
{
    match try_append(vault, FOLDER, name, bytes) {
        Tried::Done => Ok(()),
        Tried::NotDone => Err(RunError::StoreFault {
            call: Call::Append,
            count: vault.faults(),
        }),
        Tried::NoMemory => Err(RunError::Memory),
    }
}

// Syncs a file of these bytes.
fn sync<V: Vault>(vault: &mut V, name: &str) -> Result<(), RunError>
    requires { (x : File) × IsOpen (V.contents vault.old) run name.now x }
    ensures does { (x : File) → IsOpen (V.contents vault.old) run name.now x → Synced name.now x.bytes (V.contents vault.new) result }
    ensures frame { OnlyFile run name.now (V.contents vault.old) (V.contents vault.new) }
    ensures tells { Tells (V.tally vault.old) (V.tally vault.new) result }
{
    match try_sync(vault, FOLDER, name) {
        Tried::Done => Ok(()),
        Tried::NotDone => Err(RunError::StoreFault {
            call: Call::Sync,
            count: vault.faults(),
        }),
        Tried::NoMemory => Err(RunError::Memory),
    }
}

// Appends to an empty file and syncs it.
fn fill<V: Vault>(vault: &mut V, name: &str, bytes: &[u8]) -> Result<(), RunError>
    requires { IsOpen (V.contents vault.old) run name.now empty_file }
    ensures does { Synced name.now bytes.now (V.contents vault.new) result }
    ensures frame { OnlyFile run name.now (V.contents vault.old) (V.contents vault.new) }
    ensures tells { Tells (V.tally vault.old) (V.tally vault.new) result }
{
    append(vault, name, bytes)?;
    sync(vault, name)
}

/// Writes and syncs a new run of these cells, with one append. After a fault, or for want of memory, its file may stand,
/// whole or in part.
pub fn write_run<V: Vault>(
    alloc: Global,
    vault: &mut V,
    name: &str,
    cells: &[RunCell],
) -> Result<(), RunError>
    requires order { are_in_order cells.now ≡ true }
    requires values { All (λ c. IsShort c.kind) cells.now }
    ensures does { WritesRun name.now cells.now (V.contents vault.old) (V.contents vault.new) result }
    ensures frame { OnlyFile run name.now (V.contents vault.old) (V.contents vault.new) }
    ensures tells { Tells (V.tally vault.old) (V.tally vault.new) result }
{
    let bytes = encode_run(alloc, cells)?;
    match vault.create(FOLDER, name) {
        Ok(()) => fill(vault, name, bytes.as_slice()),
        Err(VaultError::Gone) => Err(RunError::Gone),
        Err(VaultError::Exists) => Err(RunError::Exists),
        Err(VaultError::Failed) => Err(RunError::StoreFault {
            call: Call::Create,
            count: vault.faults(),
        }),
        Err(VaultError::Memory) => Err(RunError::Memory),
        Err(VaultError::Sealed) => unreachable!(),
    }
}
