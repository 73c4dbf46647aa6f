ghost use Rattle.std.specs.Prelude.{◌≡◌};
ghost use Rattle.wire_batch.specs.declared.batch.BatchError.TheVariants.{Memory as OutOfMemory};

use rep_types::{Cluster, Entries, Memory, PeerId, ServerId};
use thiserror::Error;

/// What is sent of a queue at once: the cluster, peer and server of the queue, the flight's number, and the forms in
/// order. A form is a write with the source's region and sequence id, its own marks, and no origin.
#[derive(Drop)]
pub struct Batch {
    pub cluster: Cluster,
    pub peer: PeerId,
    pub server: ServerId,
    pub flight: u32,
    pub forms: Entries,
}

/// Why bytes aren't decoded.
#[derive(Debug, Drop, Error)]
pub enum BatchError {
    /// The first broken item: the place of its first byte, or where the bytes end in it, and the number of its field.
    #[error("bad batch: field {rule} at {at}")]
    BadBatch { at: u32, rule: u8 },
    #[error("out of memory")]
    Memory,
}

impl From<Memory> for BatchError {
    ghost from_gives = { λ _ e. e ≡ OutOfMemory };

    fn from(_: Memory) -> BatchError {
        BatchError::Memory
    }
}
