// The clusters of the machine.
ghost use Rattle.std.specs.Prelude.{◌≡◌};
ghost use Rattle.std.specs.Borrow.{sem};
ghost use Rattle.rep_model.specs.State.{unlinked, empty_side, opening, other, mark, of};
ghost use Rattle.plain_parts.specs.Lends.{lends_side};

use rep_model::{Link, Machine, Side};
use rep_types::{Cluster, Items, Phase, QueueForms, SyncState};
use std::alloc::Global;

/// The other cluster of a pair, which C stands outside of.
pub fn other(cluster: Cluster) -> Cluster
    ensures { result ≡ other cluster }
{
    match cluster {
        Cluster::A => Cluster::B,
        Cluster::B => Cluster::A,
        Cluster::C => Cluster::C,
    }
}

/// The cluster's own bit among the marks.
pub fn mark(cluster: Cluster) -> u8
    ensures { result ≡ mark cluster }
{
    match cluster {
        Cluster::A => 1,
        Cluster::B => 2,
        Cluster::C => 4,
    }
}

fn new_link(alloc: Global) -> Link
    ensures { result ≡ unlinked }
{
    Link {
        state: SyncState::Absent,
        phase: Phase::Idle,
        folder: None,
        folders: 0,
        promotions: 0,
        copies: Items::new(alloc),
        replaying: Items::new(alloc),
    }
}

fn new_side(alloc: Global) -> Side
    ensures { result ≡ empty_side }
{
    Side {
        commits: Items::new(alloc),
        written: Items::new(alloc),
        tables: Items::new(alloc),
        servers: Items::new(alloc),
        regions: Items::new(alloc),
        peers: Items::new(alloc),
        queues: Items::new(alloc),
        forms: QueueForms::New,
        link: new_link(alloc),
    }
}

/// Nothing in any cluster; takes no memory.
pub fn opening(alloc: Global) -> Machine
    ensures { result ≡ opening }
{
    Machine {
        a: new_side(alloc),
        b: new_side(alloc),
        c: new_side(alloc),
        flights: Items::new(alloc),
        tickets: Items::new(alloc),
    }
}

pub fn side(machine: &Machine, cluster: Cluster) -> &Side
    ensures { result.now ≡ of cluster machine.now }
{
    match cluster {
        Cluster::A => &machine.a,
        Cluster::B => &machine.b,
        Cluster::C => &machine.c,
    }
}

pub fn side_mut(machine: &mut Machine, cluster: Cluster) -> &mut Side
    ensures* writes_back { sem 𝓛 (lends_side machine.entry cluster result) }
    ensures value { result.now ≡ of cluster machine.old }
{
    match cluster {
        Cluster::A => &mut machine.a,
        Cluster::B => &mut machine.b,
        Cluster::C => &mut machine.c,
    }
}
