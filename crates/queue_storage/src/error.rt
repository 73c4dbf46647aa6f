ghost use Rattle.std.specs.Prelude.{◌≡◌};
ghost use Rattle.queue_storage.specs.declared.error.QueueError.TheVariants.{Memory as OutOfMemory};

use rep_types::Memory;
use thiserror::Error;

/// Why a call of a queue store was refused.
#[derive(Clone, Copy, Debug, Error)]
pub enum QueueError {
    #[error("there is no such queue")]
    NoQueue,
    /// The put failed; the store's count of faults after it.
    #[error("the store failed: {count} faults")]
    StoreFault { count: u64 },
    #[error("out of memory")]
    Memory,
}

impl From<Memory> for QueueError {
    ghost from_gives = { λ _ e. e ≡ OutOfMemory };

    fn from(_: Memory) -> QueueError {
        QueueError::Memory
    }
}
