ghost use Rattle.std.specs.Prelude.{◌≡◌, ◌≤◌, true, length, All, IfOk};
ghost use Rattle.store_file.specs.Order.{is_behind, are_in_order};
ghost use Rattle.store_file.specs.Run.{last_of, verdict};
ghost use Rattle.store_file.specs.Spelling.{IsShort, IsTypedCell};
ghost use Rattle.store_file.specs.Stored.{Decodes, Judges, ReadsRun, Tells};

use crate::allowed::cell_of;
use crate::fields::read_fields;
use crate::write::FOLDER;
use crate::{RunCell, RunCells, RunError};
use byteorder::{BigEndian, ByteOrder};
use rep_types::{Bytes, Call};
use rep_vault::{Vault, VaultError};
use std::alloc::Global;

fn is_behind(earlier: &RunCells, cell: &RunCell) -> bool
    ensures { result ≡ is_behind (last_of earlier.now) cell.now }
{
    match earlier.as_slice().last() {
        Some(before) => before.order(cell).is_lt(),
        None => true,
    }
}

// Takes the cell that the bytes begin with, of a file of so many bytes: the bytes after it.
fn take_cell<'a>(
    alloc: Global,
    total: usize,
    earlier: &mut RunCells,
    bytes: &'a [u8],
) -> Result<&'a [u8], RunError>
    requires { length bytes.now ≤ total }
    ensures { Judges total earlier.old earlier.new bytes.entry.now result }
{
    let at = (total - bytes.len()) as u64;
    let Some((fields, rest)) = read_fields(bytes) else {
        return Err(RunError::BadRun {
            at: total as u64,
            rule: 5,
        });
    };
    let Some(cell) = cell_of(alloc, &fields)? else {
        return Err(RunError::BadRun { at, rule: 2 });
    };
    if !is_behind(earlier, &cell) {
        return Err(RunError::BadRun { at, rule: 3 });
    }
    earlier.push(cell)?;
    Ok(rest)
}

// The cells of a run.
fn decode_run(alloc: Global, bytes: &[u8]) -> Result<RunCells, RunError>
    ensures does { Decodes result (verdict bytes.now) }
    ensures order { IfOk result (λ all. are_in_order all ≡ true) }
    ensures typed { IfOk result (λ all. All IsTypedCell all) }
    ensures short { IfOk result (λ all. All (λ c. IsShort c.kind) all) }
{
    if bytes.len() < 8 {
        return Err(RunError::BadRun { at: 0, rule: 1 });
    }
    let total = bytes.len();
    let count = BigEndian::read_u64(bytes);
    let mut earlier = RunCells::new(alloc);
    let mut rest = &bytes[8..];
    for _ in 0..count {
        rest = take_cell(alloc, total, &mut earlier, rest)?;
    }
    if rest.is_empty() {
        Ok(earlier)
    } else {
        Err(RunError::BadRun {
            at: (total - rest.len()) as u64,
            rule: 4,
        })
    }
}

/// The cells of the run of that name, in order; each is such as `write_run` takes. The file is read once.
pub fn read_run<V: Vault>(alloc: Global, vault: &mut V, name: &str) -> Result<RunCells, RunError>
    ensures does { ReadsRun name.now (V.contents vault.old) result }
    ensures order { IfOk result (λ all. are_in_order all ≡ true) }
    ensures typed { IfOk result (λ all. All IsTypedCell all) }
    ensures short { IfOk result (λ all. All (λ c. IsShort c.kind) all) }
    ensures kept { V.contents vault.new ≡ V.contents vault.old }
    ensures tells { Tells (V.tally vault.old) (V.tally vault.new) result }
{
    let mut bytes = Bytes::new(alloc);
    match vault.read(FOLDER, name, 0, u64::MAX, &mut bytes) {
        Ok(()) => decode_run(alloc, bytes.as_slice()),
        Err(VaultError::Gone) => Err(RunError::Gone),
        Err(VaultError::Failed) => Err(RunError::StoreFault {
            call: Call::Read,
            count: vault.faults(),
        }),
        Err(VaultError::Memory) => Err(RunError::Memory),
        Err(_) => unreachable!(),
    }
}
