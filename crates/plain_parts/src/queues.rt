// Queues, admission and batches.
ghost use Rattle.std.specs.Prelude.{◌≡◌, ◌≤◌, ◌<◌, ◌&&◌, ◌||◌, not, nat_le, true, [], ◌∷◌, Some, None, drop, find, length, position, IfOk, IfSome};
ghost use Rattle.std.specs.Option.{option_copied};
ghost use Rattle.rep_model.specs.Regions.{overlap};
ghost use Rattle.wal_entry.specs.Length.{frame_length};
ghost use Rattle.rep_model.specs.Commits.{id_of, same_entry, stands_in};
ghost use Rattle.rep_model.specs.Queues.{is_queued, queue, before, has_all_before, is_admitted, batch, last_of, unrecorded, parent_need, need};
ghost use Rattle.rep_model.specs.QueueEvents.{is_empty};

use crate::copies::copy_commit;
use crate::places::overlap;
use rep_model::{Commit, Peer};
use rep_types::{Cluster, EntryId, Items, Kind, Memory, RegionId, ServerId};
use std::alloc::Global;
use wal_entry::kind_length;

/// An entry's name in its cluster.
pub fn id_of(cluster: Cluster, commit: &Commit) -> EntryId
    ensures { result ≡ id_of cluster commit.now }
{
    EntryId {
        cluster,
        region: commit.region.number,
        seq: commit.seq,
    }
}

/// Whether they have one name.
fn same_entry(entry: &Commit, other: &Commit) -> bool
    ensures { result ≡ same_entry entry.now other.now }
{
    entry.region.number == other.region.number && entry.seq == other.seq
}

/// Whether the list has an entry of this name.
pub fn stands_in(entries: &[Commit], entry: &Commit) -> bool
    ensures { result ≡ stands_in entries.now entry.now }
{
    entries.iter().any(|other| same_entry(entry, other))
}

/// The commits from this place on.
pub fn after(commits: &[Commit], start: u64) -> &[Commit]
    ensures { result.now ≡ drop start commits.now }
{
    let start = (start as usize).min(commits.len());
    &commits[start..]
}

fn entry_place(entry: &Commit, commits: &[Commit]) -> Option<usize>
    ensures first { result ≡ position (same_entry entry.now) commits.now }
    ensures within { IfSome result (λ at. at < length commits.now) }
{
    commits.iter().position(|other| same_entry(entry, other))
}

/// The commits before this one.
fn before<'a>(entry: &Commit, commits: &'a [Commit]) -> &'a [Commit]
    ensures { result.now ≡ before entry.now commits.now }
{
    match entry_place(entry, commits) {
        Some(at) => &commits[..at],
        None => commits,
    }
}

/// Whether an earlier commit lets the entry be sent after the batch.
fn lets_by(peer: &Peer, batch: &[Commit], entry: &Commit, earlier: &Commit) -> bool
    ensures { result ≡ (not (overlap earlier.now.region entry.now.region) || (stands_in peer.now.recorded earlier.now || stands_in batch.now earlier.now)) }
{
    !overlap(&earlier.region, &entry.region)
        || (stands_in(peer.recorded.as_slice(), earlier) || stands_in(batch, earlier))
}

/// Whether each earlier commit after the peer's serial start that overlaps the entry is recorded or
/// in the batch.
fn has_all_before(peer: &Peer, commits: &[Commit], batch: &[Commit], entry: &Commit) -> bool
    ensures { result ≡ has_all_before peer.now commits.now batch.now entry.now }
{
    after(before(entry, commits), peer.serial_start)
        .iter()
        .all(|earlier| lets_by(peer, batch, entry, earlier))
}

fn is_admitted(peer: &Peer, commits: &[Commit], batch: &[Commit], entry: &Commit) -> bool
    ensures { result ≡ is_admitted peer.now.kind peer.now commits.now batch.now entry.now }
{
    match peer.kind {
        Kind::Plain => true,
        Kind::Synchronous => true,
        Kind::Serial => has_all_before(peer, commits, batch, entry),
    }
}

/// Whether the entry may come next in the batch, which has so many bytes left.
fn fits(peer: &Peer, commits: &[Commit], batch: &[Commit], room: u32, entry: &Commit) -> bool
    ensures value { result ≡ (nat_le (frame_length entry.now.kind) room && is_admitted peer.now.kind peer.now commits.now batch.now entry.now) }
    ensures within { result ≡ true → frame_length entry.now.kind ≤ room }
{
    kind_length(&entry.kind) <= room && is_admitted(peer, commits, batch, entry)
}

fn is_queued(peer: &Peer, server: ServerId, commit: &Commit) -> bool
    ensures { result ≡ is_queued peer.now server commit.now }
{
    commit.server == server && !stands_in(peer.recorded.as_slice(), commit)
}

/// The longest prefix of a queue of at most so many entries and 65,536 bytes, each admitted after
/// those before it.
pub fn batch(
    alloc: Global,
    peer: &Peer,
    server: ServerId,
    most: u16,
    commits: &[Commit],
) -> Result<Items<Commit>, Memory>
    ensures { IfOk result (λ taken. taken ≡ batch peer.now server most commits.now) }
{
    let mut taken = Items::new(alloc);
    let mut left = most;
    let mut room = 65536u32;
    let waiting = after(commits, peer.start);
    for commit in waiting {
        if is_queued(peer, server, commit) {
            if left == 0 || !fits(peer, commits, taken.as_slice(), room, commit) {
                return Ok(taken);
            }
            taken.push(copy_commit(alloc, commit)?)?;
            left -= 1;
            room -= kind_length(&commit.kind);
        }
    }
    Ok(taken)
}

fn queue_head<'a>(peer: &Peer, server: ServerId, commits: &'a [Commit]) -> Option<&'a Commit>
    ensures { option_copied result ≡ find (is_queued peer.now server) (drop peer.now.start commits.now) }
{
    after(commits, peer.start)
        .iter()
        .find(|commit| is_queued(peer, server, commit))
}

pub fn queue_is_empty(peer: &Peer, server: ServerId, commits: &[Commit]) -> bool
    ensures { result ≡ is_empty (queue peer.now server commits.now) }
{
    match queue_head(peer, server, commits) {
        Some(_) => false,
        None => true,
    }
}

/// The last commit of the region.
fn last_of(region: RegionId, commits: &[Commit]) -> Option<&Commit>
    ensures { option_copied result ≡ last_of region commits.now None }
{
    let mut found = None;
    for commit in commits {
        if commit.region.number == region {
            found = Some(commit);
        }
    }
    found
}

/// The region's last commit after the peer's serial start, where it isn't recorded.
fn unrecorded_last<'a>(peer: &Peer, commits: &'a [Commit], region: RegionId) -> Option<&'a Commit>
    ensures { option_copied result ≡ unrecorded peer.now (last_of region (drop peer.now.serial_start commits.now) None) }
{
    match last_of(region, after(commits, peer.serial_start)) {
        Some(last) => {
            if stands_in(peer.recorded.as_slice(), last) {
                None
            } else {
                Some(last)
            }
        }
        None => None,
    }
}

/// Of the first parent whose last commit isn't recorded, that commit.
fn parent_need<'a>(peer: &Peer, commits: &'a [Commit], parents: &[RegionId]) -> Option<&'a Commit>
    ensures { option_copied result ≡ parent_need peer.now commits.now parents.now }
{
    for parent in parents {
        if let Some(last) = unrecorded_last(peer, commits, *parent) {
            return Some(last);
        }
    }
    None
}

fn head_need(cluster: Cluster, peer: &Peer, commits: &[Commit], head: &Commit) -> EntryId
    ensures { Some result ≡ need cluster peer.now commits.now (head.now ∷ []) }
{
    if 1 < head.seq {
        return EntryId {
            cluster,
            region: head.region.number,
            seq: head.seq - 1,
        };
    }
    match parent_need(peer, commits, head.region.parents.as_slice()) {
        Some(last) => id_of(cluster, last),
        None => id_of(cluster, head),
    }
}

/// What the head of a queue waits for: the commit of its region directly before it, or of a parent
/// the last.
pub fn need(cluster: Cluster, peer: &Peer, commits: &[Commit], server: ServerId) -> Option<EntryId>
    ensures { result ≡ need cluster peer.now commits.now (queue peer.now server commits.now) }
{
    match queue_head(peer, server, commits) {
        Some(head) => Some(head_need(cluster, peer, commits, head)),
        None => None,
    }
}
