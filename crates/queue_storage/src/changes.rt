// Changes of several records, behind other changes, and the queues that such a change leaves.
ghost use Rattle.std.specs.Prelude.{◌≡◌, ◌++◌, filter, map, IfOk};
ghost use Rattle.queue_storage.specs.Changes.{lists_logs, queue_dropped, last_dropped};
ghost use Rattle.queue_storage.specs.Ids.{counting};
ghost use Rattle.queue_storage.specs.Queues.{is_of, is_of_another, logged};
ghost use Rattle.queue_storage.specs.Texts.{queue_change, last_change};

use crate::record::{QueueRecord, last_change, last_dropped, queue_change, queue_dropped};
use crate::turns::{lists_logs, logged};
use last_ids::LastId;
use rep_types::{Items, Memory, PeerId, ServerId};
use rep_vault::Change;
use std::alloc::Global;

/// The records of queues.
pub fn queue_changes(
    alloc: Global,
    with: Vec<Change>,
    queues: &[QueueRecord],
) -> Result<Vec<Change>, Memory>
    ensures { IfOk result (λ changes. changes.items ≡ with.items ++ map queue_change queues.now) }
{
    let mut changes = with;
    for queue in queues {
        changes.push(queue_change(alloc, queue)?)?;
    }
    Ok(changes)
}

/// The records of a peer's last pushed ids.
pub fn last_changes(
    alloc: Global,
    with: Vec<Change>,
    peer: PeerId,
    ids: &[LastId],
) -> Result<Vec<Change>, Memory>
    ensures { IfOk result (λ changes. changes.items ≡ with.items ++ map (last_change peer) ids.now) }
{
    let mut changes = with;
    for id in ids {
        changes.push(last_change(alloc, peer, id)?)?;
    }
    Ok(changes)
}

/// The records of the queues that list the logs of a server.
pub fn log_changes(
    alloc: Global,
    with: Vec<Change>,
    server: ServerId,
    queues: &[QueueRecord],
) -> Result<Vec<Change>, Memory>
    ensures { IfOk result (λ changes. changes.items ≡ with.items ++ map queue_change (filter (lists_logs server) queues.now)) }
{
    let mut changes = with;
    for queue in queues {
        if lists_logs(queue, server) {
            changes.push(queue_change(alloc, queue)?)?;
        }
    }
    Ok(changes)
}

/// The records of a peer's queues go.
pub fn queues_dropped(
    alloc: Global,
    with: Vec<Change>,
    peer: PeerId,
    queues: &[QueueRecord],
) -> Result<Vec<Change>, Memory>
    ensures { IfOk result (λ changes. changes.items ≡ with.items ++ map queue_dropped (filter (is_of peer) queues.now)) }
{
    let mut changes = with;
    for queue in queues {
        if queue.peer == peer {
            changes.push(queue_dropped(alloc, queue)?)?;
        }
    }
    Ok(changes)
}

/// The records of a peer's last pushed ids go.
pub fn lasts_dropped(
    alloc: Global,
    with: Vec<Change>,
    peer: PeerId,
    ids: &[LastId],
) -> Result<Vec<Change>, Memory>
    ensures { IfOk result (λ changes. changes.items ≡ with.items ++ map (last_dropped peer) (counting ids.now)) }
{
    let mut changes = with;
    for id in ids {
        if id.seq != 0 {
            changes.push(last_dropped(alloc, peer, id)?)?;
        }
    }
    Ok(changes)
}

/// The queues with this as the greatest log of that server.
pub fn queues_logged(
    alloc: Global,
    queues: &[QueueRecord],
    server: ServerId,
    log: u32,
) -> Result<Items<QueueRecord>, Memory>
    ensures { IfOk result (λ next. next ≡ map (logged server log) queues.now) }
{
    let mut next = Items::new(alloc);
    for queue in queues {
        next.push(logged(queue, server, log))?;
    }
    Ok(next)
}

/// The queues of the other peers.
pub fn queues_of_others(
    alloc: Global,
    queues: &[QueueRecord],
    peer: PeerId,
) -> Result<Items<QueueRecord>, Memory>
    ensures { IfOk result (λ next. next ≡ filter (is_of_another peer) queues.now) }
{
    let mut next = Items::new(alloc);
    for queue in queues {
        if queue.peer != peer {
            next.push(*queue)?;
        }
    }
    Ok(next)
}
