ghost use Rattle.std.specs.Prelude.{◌≡◌, true};
ghost use Rattle.store_file.specs.Order.{are_in_order};

use rep_types::Bytes;
use rep_vault::{MemVault, Vault};
use run_cells::{compact, show};
use std::alloc::Global;
use std::test::Fail;
use store_file::{FOLDER, RunCell, read_run};

/// A version of the cell `f:q` of row `r`, of generation 0: its timestamp, sequence id, replay number and value, where 0 stands for
/// a delete.
type Version = (u8, u8, u8, u8);

/// Two versions in the order of a run, the value that they show, 0 where they show none, and how many of them a compaction keeps.
/// A delete hides an older put that came later; one below a put stays, for puts that come later still. A replayed put stands above
/// the commit whose sequence id it has. The greater timestamp counts, also where it came first.
static CASES: [(Version, Version, u8, usize); 4] = [
    ((20, 2, 0, 0), (15, 3, 0, b'v'), 0, 1),
    ((20, 3, 0, b'v'), (15, 2, 0, 0), b'v', 2),
    ((10, 2, 1, b'w'), (10, 2, 0, b'v'), b'w', 1),
    ((20, 3, 0, b'v'), (10, 4, 0, b'w'), b'v', 1),
];

fn add(out: &mut Bytes, version: Version) -> Result<(), Fail> {
    let (stamp, seq, replay, value) = version;
    out.extend_from_slice(&[0, 1, b'r', 1, b'f', 1, b'q', 0, 0, 0, 0, 0, 0, 0])?;
    out.push(stamp)?;
    out.push(if value == 0 { 2 } else { 1 })?;
    out.extend_from_slice(&[0, 0, 0, 0, 0, 0, 0, 0, 0])?;
    out.push(seq)?;
    out.extend_from_slice(&[0, 0, 0])?;
    out.push(replay)?;
    if value != 0 {
        out.extend_from_slice(&[0, 1])?;
        out.push(value)?;
    }
    Ok(())
}

// A store in which these two are the run `1.1`.
fn holding(alloc: Global, first: Version, second: Version) -> Result<MemVault, Fail> {
    let mut bytes = Bytes::new(alloc);
    bytes.extend_from_slice(&[0, 0, 0, 0, 0, 0, 0, 2])?;
    add(&mut bytes, first)?;
    add(&mut bytes, second)?;
    let mut vault = MemVault::new(alloc)?;
    vault.create(FOLDER, "1.1")?;
    vault.append(FOLDER, "1.1", bytes.as_slice())?;
    Ok(vault)
}

fn shows(alloc: Global, cells: &[RunCell], value: u8) -> Result<bool, Fail>
    requires { are_in_order cells.now ≡ true }
{
    let views = show(alloc, cells)?;
    match views.get(0) {
        Some(view) => Ok(views.len() == 1 && view.value.as_slice() == [value].as_slice()),
        None => Ok(value == 0),
    }
}

fn keeps(alloc: Global, cells: &[RunCell], count: usize) -> Result<bool, Fail>
    requires { are_in_order cells.now ≡ true }
{
    Ok(compact(alloc, cells)?.len() == count)
}

// Whether two versions show the value, and so many are kept.
fn is_so(
    alloc: Global,
    first: Version,
    second: Version,
    shown: u8,
    kept: usize,
) -> Result<bool, Fail> {
    let mut vault = holding(alloc, first, second)?;
    let Ok(cells) = read_run(alloc, &mut vault, "1.1") else {
        return Ok(false);
    };
    Ok(shows(alloc, cells.as_slice(), shown)? && keeps(alloc, cells.as_slice(), kept)?)
}

#[test]
fn two_versions_of_a_cell(rt: HostRuntime) -> Result<(), Fail> {
    for (first, second, shown, kept) in CASES.iter() {
        assert!(rt; is_so(rt.alloc(), *first, *second, *shown, *kept)?);
    }
    Ok(())
}
