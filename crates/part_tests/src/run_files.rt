use rep_vault::{MemVault, Vault};
use std::alloc::Global;
use std::test::Fail;
use store_file::{FOLDER, RunError, read_run};

/// Two versions of the cell `f:q` of row `r1`: a put of `v` at timestamp 10, of generation 0, sequence id 2 and no replay, and
/// a delete at timestamp 9, of sequence id 3.
const RUN: [u8; 73] = [
    0, 0, 0, 0, 0, 0, 0, 2, 0, 2, 0x72, 0x31, 1, 0x66, 1, 0x71, 0, 0, 0, 0, 0, 0, 0, 0xa, 1, 0, 0,
    0, 0, 0, 0, 0, 0, 0, 2, 0, 0, 0, 0, 0, 1, 0x76, 0, 2, 0x72, 0x31, 1, 0x66, 1, 0x71, 0, 0, 0, 0,
    0, 0, 0, 9, 2, 0, 0, 0, 0, 0, 0, 0, 0, 0, 3, 0, 0, 0, 0,
];

/// Places of a byte of the run, another byte for it, and what is broken then: a place and a rule.
const BROKEN: [(usize, u8, u64, u8); 11] = [
    (7, 1, 42, 4),
    (7, 3, 73, 5),
    (9, 0, 73, 5),
    (9, 65, 73, 5),
    (10, b'R', 8, 2),
    (12, 0, 73, 5),
    (24, 0, 8, 2),
    (24, 3, 8, 2),
    (23, 8, 42, 3),
    (57, 10, 42, 3),
    (58, 0, 42, 2),
];

// A store in which these bytes are the run `1.1`.
fn holding(alloc: Global, bytes: &[u8]) -> Result<MemVault, Fail> {
    let mut vault = MemVault::new(alloc)?;
    vault.create(FOLDER, "1.1")?;
    vault.append(FOLDER, "1.1", bytes)?;
    Ok(vault)
}

fn is_bad(alloc: Global, bytes: &[u8], place: u64, number: u8) -> Result<bool, Fail> {
    let mut vault = holding(alloc, bytes)?;
    match read_run(alloc, &mut vault, "1.1") {
        Err(RunError::BadRun { at, rule }) => Ok(at == place && rule == number),
        _ => Ok(false),
    }
}

// Whether the run with another byte at the place is broken there.
fn is_bad_at(alloc: Global, place: usize, byte: u8, at: u64, rule: u8) -> Result<bool, Fail> {
    let mut bytes = RUN;
    let Some(changed) = bytes.get_mut(place) else {
        return Ok(false);
    };
    *changed = byte;
    is_bad(alloc, &bytes, at, rule)
}

// A run that is cut is broken where it ends, and at its first byte where the number of its cells is cut.
fn is_cut(alloc: Global, most: usize) -> Result<bool, Fail> {
    let Some(bytes) = RUN.get(..most) else {
        return Ok(false);
    };
    if most < 8 {
        is_bad(alloc, bytes, 0, 1)
    } else {
        is_bad(alloc, bytes, most as u64, 5)
    }
}

// Whether the bytes are refused by a rule, at a place in them, or are a run of two cells.
fn is_judged(alloc: Global, bytes: &[u8]) -> Result<bool, Fail> {
    let mut vault = holding(alloc, bytes)?;
    match read_run(alloc, &mut vault, "1.1") {
        Ok(cells) => Ok(cells.len() == 2),
        Err(RunError::BadRun { at, rule }) => Ok(at <= 73 && 1 <= rule && rule <= 5),
        Err(_) => Ok(false),
    }
}

fn is_judged_at(alloc: Global, place: usize, byte: u8) -> Result<bool, Fail> {
    let mut bytes = RUN;
    let Some(changed) = bytes.get_mut(place) else {
        return Ok(false);
    };
    *changed = byte;
    is_judged(alloc, &bytes)
}

#[test]
fn a_run_is_judged_byte_by_byte(rt: HostRuntime) -> Result<(), Fail> {
    let alloc = rt.alloc();
    assert!(rt; is_judged(alloc, &RUN)?);
    for (place, byte, at, rule) in BROKEN.iter() {
        assert!(rt; is_bad_at(alloc, *place, *byte, *at, *rule)?);
    }
    for place in 0..73usize {
        assert!(rt; is_cut(alloc, place)?);
        assert!(rt; is_judged_at(alloc, place, 0)?);
        assert!(rt; is_judged_at(alloc, place, 255)?);
    }
    Ok(())
}
