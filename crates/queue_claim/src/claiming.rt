ghost use Rattle.std.specs.Prelude.{◌≡◌, ◌∷◌, [], ℕ, ◌≤◌, IfSome, OnOk, OnErr, Some, Err};
ghost use Rattle.rep_types.specs.declared.state.Call.{Call};
ghost use Rattle.rep_types.specs.declared.state.Call.TheVariants.{Put};
ghost use Rattle.rep_vault.specs.Contents.{with_records};
ghost use Rattle.wal_roll.specs.Blamed.{IsFault};
ghost use Rattle.rep_model.specs.Keyed.{replace};
ghost use Rattle.queue_storage.specs.Queues.{is_queue, queue_at, owned};
ghost use Rattle.queue_storage.specs.Recorded.{Recorded};
ghost use Rattle.queue_storage.specs.Texts.{queue_change};
ghost use Rattle.queue_claim.specs.declared.claiming.ClaimError.TheVariants.{StoreFault};
ghost use Rattle.queue_claim.specs.Claims.{is_live, refusal, Answers};

use queue_storage::{QueueError, QueueStore};
use rep_types::{PeerId, ServerId, ServerSet};
use rep_vault::Vault;
use thiserror::Error;

/// Why a queue wasn't claimed; the first that holds, in this order.
#[derive(Clone, Copy, Debug, Error)]
pub enum ClaimError {
    #[error("there is no such queue")]
    NoQueue,
    #[error("the claimer isn't live")]
    Dead { server: ServerId },
    #[error("its owner is live")]
    Owned { by: ServerId },
    /// The put failed; the store's count of faults after it.
    #[error("the store failed: {count} faults")]
    StoreFault { count: u64 },
    #[error("out of memory")]
    Memory,
}

fn is_live(live: &ServerSet, server: ServerId) -> bool
    ensures { result ≡ is_live live.now server }
{
    live.as_slice().iter().any(|number| *number == server)
}

/// What speaks against a claim, before its put: there is no such queue, the claimer isn't live, or the owner is. The queue of
/// a live server has a live owner, itself or another.
pub fn may_claim(
    store: &QueueStore,
    peer: PeerId,
    by: ServerId,
    server: ServerId,
    live: &ServerSet,
) -> Result<(), ClaimError>
    ensures { Answers (refusal by live.now (queue_at peer server store.now.queues)) result }
{
    let Some(queue) = store.queue(peer, server) else {
        return Err(ClaimError::NoQueue);
    };
    if !is_live(live, by) {
        return Err(ClaimError::Dead { server: by });
    }
    let owner = queue.owner;
    if is_live(live, owner) {
        return Err(ClaimError::Owned { by: owner });
    }
    Ok(())
}

/// A live server becomes the owner of a queue whose owner is dead, and its flight is over: one put of its record. After an error
/// nothing is changed.
pub fn claim<V: Vault>(
    vault: &mut V,
    store: &mut QueueStore,
    peer: PeerId,
    by: ServerId,
    server: ServerId,
    live: &ServerSet,
) -> Result<(), ClaimError>
    ensures refused { IfSome (refusal by live.now (queue_at peer server store.old.queues)) (λ e. result ≡ Err e) }
    ensures queues { OnOk result (IfSome (queue_at peer server store.old.queues) (λ q. store.new.queues ≡ replace (is_queue peer server) (owned by q) store.old.queues)) }
    ensures ids { store.new.ids ≡ store.old.ids }
    ensures forms { store.new.forms ≡ store.old.forms }
    ensures records { OnOk result (IfSome (queue_at peer server store.old.queues) (λ q. V.contents vault.new
        ≡ with_records (queue_change (owned by q) ∷ []) (V.contents vault.old))) }
    ensures recorded { OnOk result (Recorded (V.contents vault.old) store.old → Recorded (V.contents vault.new) store.new) }
    ensures err { OnErr result (store.new ≡ store.old) }
    ensures stays { OnErr result (V.contents vault.new ≡ V.contents vault.old) }
    ensures kept { (k : Call) → (V.tally vault.old).faults k ≤ (V.tally vault.new).faults k }
    ensures told { (n : ℕ) → result ≡ Err (StoreFault n) → IsFault Put n (V.tally vault.old) (V.tally vault.new) }
{
    may_claim(store, peer, by, server, live)?;
    match store.claim(vault, peer, server, by) {
        Ok(()) => Ok(()),
        Err(QueueError::NoQueue) => Err(ClaimError::NoQueue),
        Err(QueueError::StoreFault { count }) => Err(ClaimError::StoreFault { count }),
        Err(QueueError::Memory) => Err(ClaimError::Memory),
    }
}
