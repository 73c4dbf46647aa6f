use rep_types::Call;
use thiserror::Error;

/// Why a call on a log was refused; the first that holds, in this order.
#[derive(Clone, Copy, Debug, PartialEq, Eq, Error)]
pub enum LogError {
    /// An earlier append or sync of this log failed.
    #[error("the log is broken")]
    Broken,
    /// Bytes: those of the log and of the next frame are together above the limit.
    #[error("the log has {used} bytes of {limit}, and {need} more are needed")]
    NeedRoll { used: u32, need: u32, limit: u32 },
    /// A call of the store failed; its count of faults after it.
    #[error("the store failed: {call:?}, {count} faults")]
    StoreFault { call: Call, count: u64 },
    /// There was no memory, and all is as before.
    #[error("out of memory")]
    Memory,
}
