use last_ids::LastId;
use queue_claim::{ClaimError, may_claim};
use queue_storage::QueueStore;
use rep_types::{Bytes, PeerId, Place, QueueForms, RegionId, ServerId, ServerSet};
use rep_vault::{MemVault, Vault};
use std::alloc::Global;
use std::test::Fail;

// Behind the opening of a first log.
static START: Place = Place { log: 1, offset: 32 };

fn has_record(alloc: Global, vault: &mut MemVault, key: &str, text: &[u8]) -> Result<bool, Fail> {
    let mut out = Bytes::new(alloc);
    Ok(vault.get(key, &mut out)? && out.as_slice() == text)
}

// A queue of an old cluster, which starts behind an opening of 32 bytes: its record lists the logs of its server.
fn lists_logs(alloc: Global) -> Result<bool, Fail> {
    let mut vault = MemVault::new(alloc)?;
    let mut store = QueueStore::new(alloc)?;
    let (Some(peer), Some(server)) = (PeerId::new(1), ServerId::new(1)) else {
        return Ok(false);
    };
    let old = store.set_forms(&mut vault, QueueForms::Old).is_ok();
    let queue = store.new_queue(peer, server, START, 0);
    let added = store.add(&mut vault, &[queue], Vec::new(alloc)).is_ok();
    let rolled = store
        .add_log(&mut vault, server, 2, Vec::new(alloc))
        .is_ok();
    let listed = has_record(alloc, &mut vault, "queue/1/1", b"1 1 32 32 1,2")?;
    Ok(old && added && rolled && listed)
}

// A put of 56 bytes is recorded in a queue of a new cluster, with the last pushed id of its region, and then the peer goes.
fn keeps_places(alloc: Global) -> Result<bool, Fail> {
    let mut vault = MemVault::new(alloc)?;
    let mut store = QueueStore::new(alloc)?;
    let (Some(peer), Some(server), Some(region)) = (
        PeerId::new(1),
        ServerId::new(1),
        RegionId::new(1),
    ) else {
        return Ok(false);
    };
    let place = Place { log: 1, offset: 88 };
    let queue = store.new_queue(peer, server, START, 0);
    let added = store.add(&mut vault, &[queue], Vec::new(alloc)).is_ok();
    let ids = [LastId { region, seq: 2 }];
    let placed = store
        .record_place(&mut vault, peer, server, place, 1, &ids)
        .is_ok();
    let grouped = has_record(alloc, &mut vault, "queue/1/1", b"group 1 1 32 1 88")?;
    let last = has_record(alloc, &mut vault, "last/1/1", b"2")?;
    let dropped = store.drop_peer(&mut vault, peer, Vec::new(alloc)).is_ok();
    let gone = !has_record(alloc, &mut vault, "last/1/1", b"2")?;
    Ok(added && placed && grouped && last && dropped && gone)
}

// A listed record becomes a grouped one.
fn migrates(alloc: Global) -> Result<bool, Fail> {
    let mut vault = MemVault::new(alloc)?;
    let mut store = QueueStore::new(alloc)?;
    let (Some(peer), Some(server)) = (PeerId::new(1), ServerId::new(1)) else {
        return Ok(false);
    };
    let old = store.set_forms(&mut vault, QueueForms::Old).is_ok();
    let queue = store.new_queue(peer, server, START, 0);
    let added = store.add(&mut vault, &[queue], Vec::new(alloc)).is_ok();
    let mixed = store.set_forms(&mut vault, QueueForms::Mixed).is_ok();
    let migrated = store.migrate(&mut vault, peer, server).is_ok();
    let grouped = has_record(alloc, &mut vault, "queue/1/1", b"group 1 1 32 1 32")?;
    let forms = has_record(alloc, &mut vault, "forms", b"mixed")?;
    Ok(old && added && mixed && migrated && grouped && forms)
}

// A queue is claimed by a live server alone, and only while its owner is dead.
fn claims(alloc: Global) -> Result<bool, Fail> {
    let mut vault = MemVault::new(alloc)?;
    let mut store = QueueStore::new(alloc)?;
    let (Some(peer), Some(one), Some(two)) = (PeerId::new(1), ServerId::new(1), ServerId::new(2))
    else {
        return Ok(false);
    };
    let start = Place { log: 1, offset: 0 };
    let queue = store.new_queue(peer, one, start, 0);
    let added = store.add(&mut vault, &[queue], Vec::new(alloc)).is_ok();
    let mut live = ServerSet::new(alloc);
    let dead = matches!(
        may_claim(&store, peer, two, one, &live),
        Err(ClaimError::Dead { .. })
    );
    live.push(two)?;
    let free = may_claim(&store, peer, two, one, &live).is_ok();
    live.push(one)?;
    let owned = matches!(
        may_claim(&store, peer, two, one, &live),
        Err(ClaimError::Owned { .. })
    );
    Ok(added && dead && free && owned)
}

#[test]
fn queue_records(rt: HostRuntime) -> Result<(), Fail> {
    let alloc = rt.alloc();
    assert!(rt; lists_logs(alloc)?);
    assert!(rt; keeps_places(alloc)?);
    assert!(rt; migrates(alloc)?);
    assert!(rt; claims(alloc)?);
    Ok(())
}
