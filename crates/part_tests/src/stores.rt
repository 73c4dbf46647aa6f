use rep_types::{Bytes, Call, Texts};
use rep_vault::{MemVault, Vault, VaultError};
use std::alloc::Global;
use std::test::Fail;

const WAL: &str = "wal";

// The bytes of a log after four appends of `frame`, of which the second and the third were planned to fail, each leaving so
// many bytes; and how many faults were counted.
fn broken_appends(alloc: Global) -> Result<(Bytes, u64), Fail> {
    let mut vault = MemVault::new(alloc)?;
    vault.plan_failure(Call::Append, 2, 1)?;
    vault.plan_failure(Call::Append, 2, 3)?;
    vault.plan_failure(Call::Append, 3, 9)?;
    vault.create(WAL, "1.1")?;
    for _ in 0..4 {
        let _ = vault.append(WAL, "1.1", b"frame");
    }
    let mut out = Bytes::new(alloc);
    vault.read(WAL, "1.1", 0, 99, &mut out)?;
    Ok((out, vault.faults()))
}

// The later of two plans for one call stands; a failed append leaves as many bytes as planned, at most all.
#[test]
fn plans_fall_on_calls(rt: HostRuntime) -> Result<(), Fail> {
    let (bytes, faults) = broken_appends(rt.alloc())?;
    assert!(rt; bytes.as_slice() == b"framefraframeframe".as_slice());
    assert!(rt; faults == 2);
    Ok(())
}

// Where the seals of three logs end, each of which has five bytes that aren't synced: a keep of three bytes is planned behind
// the first of them, and takes the place of one of a single byte.
fn seals(alloc: Global) -> Result<(u64, u64, u64), Fail> {
    let mut vault = MemVault::new(alloc)?;
    for name in ["1.1", "1.2", "1.3"] {
        vault.create(WAL, name)?;
        vault.append(WAL, name, b"frame")?;
    }
    vault.seal(WAL, "1.1")?;
    vault.plan_keep(1)?;
    vault.plan_keep(3)?;
    let first = vault.seal(WAL, "1.1")?;
    let second = vault.seal(WAL, "1.2")?;
    let third = vault.seal(WAL, "1.3")?;
    Ok((first, second, third))
}

// A seal of a sealed file uses no keep.
#[test]
fn a_keep_waits_for_a_seal(rt: HostRuntime) -> Result<(), Fail> {
    assert!(rt; seals(rt.alloc())? == (0, 3, 0));
    Ok(())
}

// The names that stand in a folder once it was renamed, and whether the old name is gone.
fn renamed(alloc: Global) -> Result<(Texts, bool), Fail> {
    let mut vault = MemVault::new(alloc)?;
    let mut names = Texts::new(alloc);
    vault.make_folder("remote")?;
    for name in ["1.2", "1.10", "1.1"] {
        vault.create("remote", name)?;
    }
    vault.remove("remote", "1.2")?;
    vault.rename_folder("remote", "replay-1")?;
    let gone = vault.list("remote", &mut names) == Err(VaultError::Gone);
    vault.list("replay-1", &mut names)?;
    Ok((names, gone))
}

#[test]
fn folders_are_made_renamed_and_listed(rt: HostRuntime) -> Result<(), Fail> {
    let (names, gone) = renamed(rt.alloc())?;
    assert!(rt; gone && names.len() == 2);
    assert!(rt; names.get(0).map(|name| name.as_str()) == Some("1.1"));
    assert!(rt; names.get(1).map(|name| name.as_str()) == Some("1.10"));
    Ok(())
}
