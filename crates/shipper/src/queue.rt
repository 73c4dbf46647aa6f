// Which queue a flight is of.
ghost use Rattle.std.specs.Prelude.{◌≡◌};
ghost use Rattle.shipper.specs.Queues.{same_cluster, same_queue, outstanding_of, without};

use rep_types::{Cluster, PeerId, ServerId};

/// A queue: that of a cluster's peer for the logs of a server.
#[derive(Clone, Copy)]
pub struct QueueId {
    pub cluster: Cluster,
    pub peer: PeerId,
    pub server: ServerId,
}

fn same_cluster(one: Cluster, other: Cluster) -> bool
    ensures { result ≡ same_cluster one other }
{
    one == other
}

pub fn same_queue(one: &QueueId, other: &QueueId) -> bool
    ensures { result ≡ same_queue one.now other.now }
{
    same_cluster(one.cluster, other.cluster)
        && one.peer.number() == other.peer.number()
        && one.server.number() == other.server.number()
}

/// The outstanding flight of a queue.
#[derive(Clone, Copy)]
pub struct Outstanding {
    pub queue: QueueId,
    pub flight: u32,
}

/// The outstanding flight of a queue, if it has one.
pub fn outstanding_of(queue: &QueueId, outstanding: &[Outstanding]) -> Option<u32>
    ensures { result ≡ outstanding_of queue.now outstanding.now }
{
    let found = outstanding
        .iter()
        .find(|other| same_queue(queue, &other.queue))?;
    Some(found.flight)
}

/// The queue has no outstanding flight.
pub fn end(outstanding: &mut Vec<Outstanding>, queue: &QueueId)
    ensures { outstanding.new.items ≡ without queue.now outstanding.old.items }
{
    outstanding.retain(|other| !same_queue(queue, &other.queue));
}
