ghost use Rattle.std.specs.Prelude.{◌≡◌};
ghost use Rattle.log_split.specs.Told.{refused};
ghost use Rattle.log_split.specs.declared.error.SplitError.TheVariants.{Memory as OutOfMemory};

use rep_types::{Call, Memory};
use std::alloc::AllocError;
use thiserror::Error;
use wal_reader::ReaderError;

/// Why logs weren't split.
#[derive(Debug, Drop, Error)]
pub enum SplitError {
    /// The first broken item of a frame: the log's number, the place of the item's first byte in the log, and the number of
    /// its field.
    #[error("bad frame in log {log}: field {rule} at {at}")]
    BadFrame { log: u32, at: u64, rule: u8 },
    /// A call of the store failed; its count of faults after it.
    #[error("the store failed: {call:?}, {count} faults")]
    StoreFault { call: Call, count: u64 },
    #[error("out of memory")]
    Memory,
}

impl From<Memory> for SplitError {
    ghost from_gives = { λ _ e. e ≡ OutOfMemory };

    fn from(_: Memory) -> SplitError {
        SplitError::Memory
    }
}

impl From<AllocError> for SplitError {
    ghost from_gives = { λ _ e. e ≡ OutOfMemory };

    fn from(_: AllocError) -> SplitError {
        SplitError::Memory
    }
}

impl From<ReaderError> for SplitError {
    ghost from_gives = { λ cause e. e ≡ refused cause };

    fn from(cause: ReaderError) -> SplitError {
        match cause {
            ReaderError::BadFrame { log, at, rule } => SplitError::BadFrame { log, at, rule },
            ReaderError::Memory => SplitError::Memory,
        }
    }
}
