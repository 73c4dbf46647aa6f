//! What the state of a cluster's synchronous peer allows (HBASE-19064; HBase Reference Guide,
//! Cluster Replication). How a change goes on is this project's own.
#![tactic(auto)]

ghost use Rattle.std.specs.Prelude.{◌≡◌};
ghost use Rattle.sync_state.specs.Changes.{allowed, leads, retargets, serves_clients, takes_forms};

use rep_types::{Phase, SyncState};

fn leads(from: SyncState, to: SyncState) -> bool
    ensures { result ≡ leads from to }
{
    match from {
        SyncState::Active => to == SyncState::Downgrade || to == SyncState::Standby,
        SyncState::Downgrade => to == SyncState::Active || to == SyncState::Standby,
        SyncState::Absent | SyncState::Standby => false,
    }
}

fn retargets(have: SyncState, target: SyncState, to: SyncState) -> bool
    ensures { result ≡ retargets have target to }
{
    if to == have {
        have == SyncState::Active || have == SyncState::Downgrade
    } else {
        to != target && leads(have, to)
    }
}

/// Whether a change may begin that names this state. While a change is under way, that is another
/// target, or the present state, which withdraws the change, and may be named again. Only a
/// promotion leaves STANDBY.
pub fn allowed(have: SyncState, phase: Phase, to: SyncState) -> bool
    ensures { result ≡ allowed have phase to }
{
    match phase {
        Phase::Idle => leads(have, to),
        Phase::To(target) => retargets(have, target, to),
        Phase::NoFolder | Phase::Replaying { left: _ } => false,
    }
}

/// Whether clients may read rows of covered tables.
pub fn may_read(state: SyncState) -> bool
    ensures { result ≡ serves_clients state }
{
    state != SyncState::Standby
}

/// Whether clients may write covered tables.
pub fn may_write(state: SyncState) -> bool
    ensures { result ≡ serves_clients state }
{
    may_read(state)
}

/// Whether the sink takes forms of the synchronous peer.
pub fn may_sink(state: SyncState) -> bool
    ensures { result ≡ takes_forms state }
{
    state == SyncState::Standby
}
