// Batches that are kept as their bytes.
ghost use Rattle.std.specs.Prelude.{◌≡◌, [], ◌∷◌, ◌++◌, length, slice_get, IfOk, OnOk, OnErr};
ghost use Rattle.std.specs.Option.{option_map};
ghost use Rattle.wire_batch.specs.Batches.{IsSendable};
ghost use Rattle.shipper.specs.Queues.{queue_of};
ghost use Rattle.shipper.specs.Sent.{batch_kept, IsKept};

use crate::queue::QueueId;
use crate::typed::type_batch;
use rep_types::{Bytes, Items, Memory};
use std::alloc::Global;
use std::marker::Model;
use wire_batch::{Batch, BatchError, batches_both_ways, decode_batch, encode_batch};

/// The bytes of a batch, and the queue that it is of.
#[derive(Drop)]
pub struct Kept {
    pub queue: QueueId,
    pub bytes: Bytes,
}

/// Batches, each kept once, as its bytes.
#[derive(Drop)]
pub struct Sent {
    kept: Items<Kept>,
}

impl Model for Sent {
    ghost use Rattle.std.specs.Prelude.{List, All, map};
    ghost use Rattle.wire_batch.specs.declared.batch.Batch.{Batch};

    ghost Value = { List Batch };

    ghost use Rattle.shipper.specs.Sent.{batch_kept, IsKept};

    ghost view = { λ s. map batch_kept s.kept };

    ghost invariant = { λ s. All IsKept s.kept };
}

fn queue_of(batch: &Batch) -> QueueId
    ensures { result ≡ queue_of batch.now }
{
    QueueId {
        cluster: batch.cluster,
        peer: batch.peer,
        server: batch.server,
    }
}

fn keep(alloc: Global, batch: &Batch) -> Result<Kept, Memory>
    requires { IsSendable batch.now }
    ensures kept { IfOk result IsKept }
    ensures batch { IfOk result (λ kept. batch_kept kept ≡ batch.now) }
{
    type_batch(batch);
    batches_both_ways();
    let mut bytes = Bytes::new(alloc);
    encode_batch(batch, &mut bytes)?;
    Ok(Kept {
        queue: queue_of(batch),
        bytes,
    })
}

fn batch_of(alloc: Global, kept: &Kept) -> Result<Batch, Memory>
    requires { IsKept kept.now }
    ensures { IfOk result (λ batch. batch ≡ batch_kept kept.now) }
{
    match decode_batch(alloc, kept.bytes.as_slice()) {
        Ok(batch) => Ok(batch),
        Err(BatchError::Memory) => Err(Memory),
        Err(BatchError::BadBatch { at: _, rule: _ }) => unreachable!(),
    }
}

impl Sent {
    pub fn new(alloc: Global) -> Sent
        ensures { result ≡ [] }
    {
        Sent {
            kept: Items::new(alloc),
        }
    }

    pub fn len(&self) -> usize
        ensures { result ≡ length self.now }
    {
        self.kept.len()
    }

    pub fn push(&mut self, alloc: Global, batch: &Batch) -> Result<(), Memory>
        requires { IsSendable batch.now }
        ensures ok { OnOk result (self.new ≡ self.old ++ batch.now ∷ []) }
        ensures err { OnErr result (self.new ≡ self.old) }
    {
        let kept = keep(alloc, batch)?;
        self.kept.push(kept)
    }

    /// The batch at the index, if there is one.
    pub fn get(&self, alloc: Global, at: usize) -> Result<Option<Batch>, Memory>
        ensures { IfOk result (λ found. found ≡ slice_get self.now at) }
    {
        match self.kept.get(at) {
            None => Ok(None),
            Some(kept) => Ok(Some(batch_of(alloc, kept)?)),
        }
    }

    /// The queue of the batch at the index.
    pub fn queue(&self, at: usize) -> Option<QueueId>
        ensures { result ≡ option_map queue_of (slice_get self.now at) }
    {
        let kept = self.kept.get(at)?;
        Some(kept.queue)
    }
}
