ghost use Rattle.std.specs.Prelude.{◌≡◌, ◌≢◌, [], ◌∷◌, ℕ, IfOk, OnOk, OnErr, Err};
ghost use Rattle.std.specs.Option.{option_copied, option_map};
ghost use Rattle.rep_types.specs.declared.state.QueueForms.TheVariants.{New};
ghost use Rattle.rep_vault.specs.Contents.{with_records};
ghost use Rattle.last_ids.specs.Ids.{last_of};
ghost use Rattle.queue_storage.specs.declared.error.QueueError.TheVariants.{NoQueue};
ghost use Rattle.queue_storage.specs.declared.record.QueueRecord.{QueueRecord};
ghost use Rattle.queue_storage.specs.Calls.{Tells};
ghost use Rattle.queue_storage.specs.Ids.{last_pushed};
ghost use Rattle.queue_storage.specs.Queues.{queue_at};

use crate::ids::of_peer;
use crate::{QueueError, QueueRecord};
use last_ids::LastIds;
use rep_types::{Items, Memory, PeerId, Place, QueueForms, RegionId, ServerId};
use rep_vault::{Change, Tried, Vault, try_put};
use std::alloc::Global;
use std::marker::Model;

/// The queues of a cluster and the last pushed ids of its peers. What stands in a vault are their records, that of a queue in
/// the form that the queue has, and none for an id of 0.
#[derive(Drop)]
pub struct QueueStore {
    pub(crate) alloc: Global,
    pub(crate) queues: Items<QueueRecord>,
    /// Those of each peer, that of peer 1 first.
    pub(crate) ids: Items<LastIds>,
    pub(crate) forms: QueueForms,
}

impl Model for QueueStore {
    ghost use Rattle.std.specs.Prelude.{map};
    ghost use Rattle.queue_storage.specs.Ids.{counting, AreOfPeers};
    ghost use Rattle.queue_storage.specs.Queues.{Storage};

    ghost Value = { Storage };

    ghost view = { λ s. record { queues = s.queues; ids = map counting s.ids; forms = s.forms } };

    ghost invariant = { λ s. AreOfPeers s.ids };
}

fn no_ids(alloc: Global) -> Result<Items<LastIds>, Memory>
    ensures { IfOk result (λ ids. ids ≡ [] ∷ [] ∷ [] ∷ [] ∷ []) }
{
    let mut ids = Items::new(alloc);
    ids.push(LastIds::new(alloc))?;
    ids.push(LastIds::new(alloc))?;
    ids.push(LastIds::new(alloc))?;
    ids.push(LastIds::new(alloc))?;
    Ok(ids)
}

/// One put of all these records, or none.
pub fn put<V: Vault>(vault: &mut V, changes: &[Change]) -> Result<(), QueueError>
    ensures ok { OnOk result (V.contents vault.new ≡ with_records changes.now (V.contents vault.old)) }
    ensures err { OnErr result (V.contents vault.new ≡ V.contents vault.old) }
    ensures tells { Tells (V.tally vault.old) (V.tally vault.new) result }
    ensures found { result ≢ Err NoQueue }
{
    match try_put(vault, changes) {
        Tried::Done => Ok(()),
        Tried::NotDone => Err(QueueError::StoreFault {
            count: vault.faults(),
        }),
        Tried::NoMemory => Err(QueueError::Memory),
    }
}

impl QueueStore {
    /// No queue, no id; the records of queues to be made are grouped.
    pub fn new(alloc: Global) -> Result<QueueStore, Memory>
        ensures { IfOk result (λ store. store ≡ record { queues = []; ids = [] ∷ [] ∷ [] ∷ [] ∷ []; forms = New }) }
    {
        Ok(QueueStore {
            alloc,
            queues: Items::new(alloc),
            ids: no_ids(alloc)?,
            forms: QueueForms::New,
        })
    }

    /// The record of a queue. None exactly where there is no such queue.
    pub fn queue(&self, peer: PeerId, server: ServerId) -> Option<&QueueRecord>
        ensures { option_copied result ≡ queue_at peer server self.now.queues }
    {
        self.queues
            .as_slice()
            .iter()
            .find(|queue| queue.peer == peer && queue.server == server)
    }

    /// The place up to which the queue's entries are recorded. None exactly where there is no such queue.
    pub fn place(&self, peer: PeerId, server: ServerId) -> Option<Place>
        ensures { result ≡ option_map (λ (q : QueueRecord). q.place) (queue_at peer server self.now.queues) }
    {
        self.queue(peer, server).map(|queue| queue.place)
    }

    /// The server that ships the queue. None exactly where there is no such queue.
    pub fn owner(&self, peer: PeerId, server: ServerId) -> Option<ServerId>
        ensures { result ≡ option_map (λ (q : QueueRecord). q.owner) (queue_at peer server self.now.queues) }
    {
        self.queue(peer, server).map(|queue| queue.owner)
    }

    /// The last pushed ids of a peer, by region.
    pub fn last_ids(&self, peer: PeerId) -> &LastIds
        ensures { (r : ℕ) → last_of r result.now ≡ last_pushed peer r self.now.ids }
    {
        of_peer(&self.ids, peer)
    }

    /// The last pushed id of a peer's region, 0 where there is none.
    pub fn last_pushed(&self, peer: PeerId, region: RegionId) -> u64
        ensures { result ≡ last_pushed peer region self.now.ids }
    {
        self.last_ids(peer).last(region)
    }

    /// The form that the record of a new queue has.
    pub fn forms(&self) -> QueueForms
        ensures { result ≡ self.now.forms }
    {
        self.forms
    }

    /// The queues in the order in which they were made.
    pub fn queues(&self) -> &[QueueRecord]
        ensures { result.now ≡ self.now.queues }
    {
        self.queues.as_slice()
    }
}
