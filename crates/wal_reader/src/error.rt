ghost use Rattle.std.specs.Prelude.{◌≡◌};
ghost use Rattle.wal_reader.specs.declared.error.ReaderError.TheVariants.{Memory as OutOfMemory};

use rep_types::Memory;
use thiserror::Error;

/// Why a log isn't read on.
#[derive(Debug, Drop, Error)]
pub enum ReaderError {
    /// The first broken item of a frame: the place of its first byte in the log, and the number of
    /// its field.
    #[error("bad frame in log {log}: field {rule} at {at}")]
    BadFrame { log: u32, at: u64, rule: u8 },
    #[error("out of memory")]
    Memory,
}

impl From<Memory> for ReaderError {
    ghost from_gives = { λ _ e. e ≡ OutOfMemory };

    fn from(_: Memory) -> ReaderError {
        ReaderError::Memory
    }
}
