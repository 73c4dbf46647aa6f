ghost use Rattle.std.specs.Prelude.{◌≡◌};
ghost use Rattle.store_file.specs.declared.error.RunError.TheVariants.{Memory as OutOfMemory};

use rep_types::{Call, Memory};
use thiserror::Error;

/// Why a run wasn't written or read.
#[derive(Debug, Drop, Error)]
pub enum RunError {
    /// The bytes aren't a run: the number of the rule that they break, and the place of the first byte of the number or cell
    /// that breaks it; for rule 4 of the first byte after the end, and for rule 5 the number of bytes.
    #[error("not a run: rule {rule} at {at}")]
    BadRun { at: u64, rule: u8 },
    /// A call of the store failed; its count of faults after it.
    #[error("the store failed: {call:?}, {count} faults")]
    StoreFault { call: Call, count: u64 },
    #[error("there is no such file")]
    Gone,
    #[error("the file stands already")]
    Exists,
    #[error("out of memory")]
    Memory,
}

impl From<Memory> for RunError {
    ghost from_gives = { λ _ e. e ≡ OutOfMemory };

    fn from(_: Memory) -> RunError {
        RunError::Memory
    }
}
