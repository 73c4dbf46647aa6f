// Last pushed ids that are set once a put of their records is done: the memory that this takes is taken before.
ghost use Rattle.std.specs.Prelude.{◌≡◌, ◌==◌, ◌+◌, ◌<◌, ◌≤◌, ℕ, IsSome, OnOk, if◌then◌else◌, map};
ghost use Rattle.last_ids.specs.Ids.{seq_of, last_of, IsRising};
ghost use Rattle.queue_storage.specs.Ids.{counting, ids_of, pushed, AreDropped, AreKnown, AreOfPeers, ArePushed, StaySame};

use last_ids::{LastId, LastIds};
use rep_types::{Items, Memory, PeerId, RegionId};
use std::alloc::Global;

// The region has an id, be it 0, and no id is another.
fn know_one(ids: &mut LastIds, region: RegionId) -> Result<(), Memory>
    requires { IsRising ids.old }
    ensures order { IsRising ids.new }
    ensures same { counting ids.new ≡ counting ids.old }
    ensures known { OnOk result (IsSome (seq_of region ids.new)) }
    ensures still { (r : ℕ) → IsSome (seq_of r ids.old) → IsSome (seq_of r ids.new) }
{
    match ids.get(region) {
        Some(_) => Ok(()),
        None => ids.set(region, 0),
    }
}

// Each of these regions has an id from now on, be it 0, so that setting one takes no memory. No id is another.
fn know(ids: &mut LastIds, new: &[LastId]) -> Result<(), Memory>
    requires { IsRising ids.old }
    ensures order { IsRising ids.new }
    ensures same { counting ids.new ≡ counting ids.old }
    ensures known { OnOk result (AreKnown new.now ids.new) }
{
    for id in new {
        know_one(ids, id.region)?;
    }
    Ok(())
}

fn set_one(ids: &mut LastIds, id: LastId)
    requires order { IsRising ids.old }
    requires known { IsSome (seq_of id.region ids.old) }
    ensures order { IsRising ids.new }
    ensures value { (r : ℕ) → last_of r ids.new ≡ (if id.region == r then id.seq else last_of r ids.old) }
    ensures still { (r : ℕ) → IsSome (seq_of r ids.old) → IsSome (seq_of r ids.new) }
{
    let Ok(()) = ids.set(id.region, id.seq) else {
        unreachable!()
    };
}

// Sets these ids, the later of two for one region last.
fn set_known(ids: &mut LastIds, new: &[LastId])
    requires order { IsRising ids.old }
    requires known { AreKnown new.now ids.old }
    ensures order { IsRising ids.new }
    ensures value { (r : ℕ) → last_of r ids.new ≡ pushed r new.now (last_of r ids.old) }
{
    for id in new {
        set_one(ids, *id);
    }
}

// The place of a peer's ids.
fn place(peer: PeerId) -> usize
    ensures least { 1 ≤ peer }
    ensures value { result + 1 ≡ peer }
    ensures most { result < 4 }
{
    peer.number() as usize - 1
}

/// Each of these regions of a peer has an id from now on, be it 0. No id is another.
pub fn know_of(ids: &mut Items<LastIds>, peer: PeerId, new: &[LastId]) -> Result<(), Memory>
    requires { AreOfPeers ids.old }
    ensures peers { AreOfPeers ids.new }
    ensures same { map counting ids.new ≡ map counting ids.old }
    ensures known { OnOk result (AreKnown new.now (ids_of peer ids.new)) }
{
    know(ids.at_mut(place(peer)), new)
}

/// Sets these ids of a peer, the later of two for one region last.
pub fn set_of(ids: &mut Items<LastIds>, peer: PeerId, new: &[LastId])
    requires peers { AreOfPeers ids.old }
    requires known { AreKnown new.now (ids_of peer ids.old) }
    ensures peers { AreOfPeers ids.new }
    ensures pushed { ArePushed peer new.now (map counting ids.old) (map counting ids.new) }
{
    set_known(ids.at_mut(place(peer)), new);
}

/// The peer has no id any more.
pub fn drop_of(alloc: Global, ids: &mut Items<LastIds>, peer: PeerId)
    requires { AreOfPeers ids.old }
    ensures peers { AreOfPeers ids.new }
    ensures dropped { AreDropped peer (map counting ids.old) (map counting ids.new) }
{
    *ids.at_mut(place(peer)) = LastIds::new(alloc);
}

/// The ids of a peer.
pub fn of_peer(ids: &Items<LastIds>, peer: PeerId) -> &LastIds
    requires { AreOfPeers ids.now }
    ensures value { result.now ≡ ids_of peer ids.now }
    ensures order { IsRising result.now }
{
    &ids.as_slice()[place(peer)]
}
