// How pending entries are committed.
ghost use Rattle.std.specs.Prelude.{◌≡◌, ◌+◌, ◌∷◌, [], ◌++◌, ◌^◌, ◌<◌, OnOk};
ghost use Rattle.rep_model.specs.Commits.{commit_count, pending_count, writes, settled_one, settled};
ghost use Rattle.rep_model.specs.Tickets.{told_by};
ghost use Rattle.rep_model.specs.Peers.{is_synchronous, is_active, is_covered};

use crate::forms::has_table;
use crate::sides::{side, side_mut};
use crate::tickets::tell;
use rep_model::{Commit, Machine, Pending, Side, Told, Written};
use rep_types::{
    Cluster, Duplicate, EntryId, EntryKind, Items, Kind, Memory, Name, Origin, RegionId, ServerId,
    SyncState,
};
use std::alloc::Global;

pub fn is_synchronous(kind: Kind) -> bool
    ensures { result ≡ is_synchronous kind }
{
    matches!(kind, Kind::Synchronous)
}

pub fn is_active(state: SyncState) -> bool
    ensures { result ≡ is_active state }
{
    matches!(state, SyncState::Active)
}

/// How many commits a region has.
pub fn commit_count(commits: &Items<Commit>, region: RegionId) -> usize
    ensures count { result ≡ commit_count region commits.now }
    ensures small { result < 2 ^ 63 }
{
    commits
        .as_slice()
        .iter()
        .filter(|commit| commit.region.number == region)
        .count()
}

/// How many pending entries a region has.
pub fn pending_count(pending: &Items<Pending>, region: RegionId) -> usize
    ensures count { result ≡ pending_count region pending.now }
    ensures small { result < 2 ^ 63 }
{
    pending
        .as_slice()
        .iter()
        .filter(|entry| entry.region.number == region)
        .count()
}

// What an entry adds to what is written.
fn write(
    alloc: Global,
    written: &mut Items<Written>,
    kind: &EntryKind,
    origin: Option<Origin>,
) -> Result<(), Memory>
    ensures { OnOk result (written.new ≡ writes kind.now origin written.old) }
{
    let EntryKind::Write(edit) = kind else {
        return Ok(());
    };
    let source = match origin {
        Some(origin) => Some(origin.entry),
        None => None,
    };
    written.push(Written {
        edit: edit.copy(alloc)?,
        source,
    })
}

/// Whether the synchronous peer has the table.
pub fn is_covered(side: &Side, table: &Name) -> bool
    ensures { result ≡ is_covered table.now side.now }
{
    side.peers.as_slice().iter().any(|peer| is_synchronous(peer.kind)
        && has_table(&peer.tables, table))
}

// What the put of an entry is told when it is committed.
fn told_by(side: &Side, server: ServerId, log: u32, entry: EntryId, table: &Name) -> Told
    ensures { result ≡ told_by side.now server log entry table.now }
{
    if is_active(side.link.state) && is_covered(side, table) {
        Told::Waiting { server, log, entry }
    } else {
        Told::Plain
    }
}

fn commit(
    alloc: Global,
    side: &mut Side,
    server: ServerId,
    log: u32,
    seq: u64,
    pending: Pending,
) -> Result<(), Memory>
    ensures { OnOk result (side.new ≡ record side.old {
      commits = side.old.commits ++ record { server = server; log = log; region = pending.region; seq = seq; kind = pending.kind; marks = pending.marks; origin = pending.origin } ∷ [];
      written = writes pending.kind pending.origin side.old.written;
    }) }
{
    write(alloc, &mut side.written, &pending.kind, pending.origin)?;
    side.commits.push(Commit {
        server,
        log,
        region: pending.region,
        seq,
        kind: pending.kind,
        marks: pending.marks,
        origin: pending.origin,
    })
}

// The sequence id that the entry gets, and what its put is told.
fn outcome(
    side: &Side,
    cluster: Cluster,
    server: ServerId,
    log: u32,
    pending: &Pending,
) -> (u64, Told)
    ensures seq { result.0 ≡ commit_count pending.now.region.number side.now.commits + 1 }
    ensures told { result.1 ≡ told_by side.now server log (record { cluster = cluster; region = pending.now.region.number; seq = result.0 }) pending.now.region.table.name }
{
    let region = pending.region.number;
    let seq = commit_count(&side.commits, region) as u64 + 1;
    let entry = EntryId {
        cluster,
        region,
        seq,
    };
    (
        seq,
        told_by(side, server, log, entry, &pending.region.table.name),
    )
}

// The entry is committed, and its put is told.
fn settle_one(
    alloc: Global,
    machine: &mut Machine,
    cluster: Cluster,
    server: ServerId,
    log: u32,
    pending: Pending,
) -> Result<(), Memory>
    ensures { OnOk result (machine.new ≡ settled_one cluster server log pending machine.old) }
{
    let (seq, told) = outcome(side(machine, cluster), cluster, server, log, &pending);
    let ticket = pending.ticket;
    commit(alloc, side_mut(machine, cluster), server, log, seq, pending)?;
    tell(&mut machine.tickets, ticket, told);
    Ok(())
}

/// These pending entries of the server are committed, in order.
pub fn settle(
    alloc: Global,
    machine: &mut Machine,
    cluster: Cluster,
    server: ServerId,
    log: u32,
    pending: Items<Pending>,
) -> Result<(), Memory>
    ensures { OnOk result (machine.new ≡ settled cluster server log pending machine.old) }
{
    for entry in pending.into_vec() {
        settle_one(alloc, machine, cluster, server, log, entry)?;
    }
    Ok(())
}
