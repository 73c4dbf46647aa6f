ghost use Rattle.std.specs.Prelude.{◌≡◌};
ghost use Rattle.serial_gate.specs.Gate.{reach, has_come, late_parent, late_self, unless_late, gate};

use crate::BarrierMap;
use last_ids::LastIds;
use region_barriers::Parent;
use rep_types::{Cluster, Entry, EntryId, RegionId};

/// What the gate of a serial peer looks at: the cluster of the peer, its regions' barriers, and the peer's last pushed ids.
#[derive(Clone, Copy)]
pub struct GateView<'a> {
    pub cluster: Cluster,
    pub barriers: &'a BarrierMap,
    pub last: &'a LastIds,
}

/// The greatest sequence id of each region in a batch so far.
pub type SoFar = LastIds;

/// Whether an entry may be sent, or which entry has to be recorded before.
#[derive(Clone, Copy, PartialEq, Eq)]
pub enum Admission {
    Go,
    Held { need: EntryId },
}

// The region has come to this id.
fn has_come(last: &LastIds, so_far: &SoFar, region: RegionId, seq: u64) -> bool
    ensures { result ≡ has_come (reach last.now so_far.now) region seq }
{
    seq <= last.last(region).max(so_far.last(region))
}

// The last entry of the first parent that hasn't come to its end.
fn late_parent(
    cluster: Cluster,
    last: &LastIds,
    so_far: &SoFar,
    parents: &[Parent],
) -> Option<EntryId>
    ensures { result ≡ late_parent cluster (reach last.now so_far.now) parents.now }
{
    let late = parents.iter().find(|parent| !has_come(
        last,
        so_far,
        parent.region,
        parent.final_barrier.saturating_sub(1),
    ))?;
    Some(EntryId {
        cluster,
        region: late.region,
        seq: late.final_barrier.saturating_sub(1),
    })
}

// The region's entry before the barrier, where the region hasn't come to it.
fn late_self(
    cluster: Cluster,
    last: &LastIds,
    so_far: &SoFar,
    region: RegionId,
    barrier: u64,
) -> Option<EntryId>
    ensures { result ≡ late_self cluster (reach last.now so_far.now) region barrier }
{
    let seq = barrier.saturating_sub(1);
    if has_come(last, so_far, region, seq) {
        return None;
    }
    Some(EntryId {
        cluster,
        region,
        seq,
    })
}

// What the entry waits for.
fn late(view: &GateView<'_>, so_far: &SoFar, entry: &Entry) -> Option<EntryId>
    ensures { unless_late result ≡ gate view.now.cluster view.now.barriers.now (reach view.now.last.now so_far.now) entry.now }
{
    let region = entry.region;
    let barriers = view.barriers.get(region)?;
    // They don't fall, so the id has passed the first of them.
    let _order = barriers.barriers();
    let range = barriers.range_of(entry.seq)?;
    if range.first {
        late_parent(
            view.cluster,
            view.last,
            so_far,
            barriers.parents().as_slice(),
        )
    } else {
        late_self(view.cluster, view.last, so_far, region, range.barrier)
    }
}

/// Whether an entry of the view's cluster may be sent behind a batch, whose ids `so_far` has. It looks at the barriers and
/// ids of the entry's region and of that region's parents. An entry of a region that isn't known, or that has passed none
/// of its barriers, waits for nothing: there is none in a log.
pub fn admit(view: &GateView<'_>, entry: &Entry, so_far: &SoFar) -> Admission
    ensures { result ≡ gate view.now.cluster view.now.barriers.now (reach view.now.last.now so_far.now) entry.now }
{
    match late(view, so_far, entry) {
        Some(need) => Admission::Held { need },
        None => Admission::Go,
    }
}
