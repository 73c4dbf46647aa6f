ghost use Rattle.std.specs.Prelude.{◌≡◌};
ghost use Rattle.peer_config.specs.declared.error.PeerError.TheVariants as error;

use rep_types::Memory;
use thiserror::Error;

/// Why a call changes nothing.
#[derive(Clone, Copy, Debug, PartialEq, Eq, Error)]
pub enum PeerError {
    #[error("no such peer")]
    NoPeer,
    #[error("the peer's number was used")]
    Exists,
    #[error("the peer is synchronous")]
    IsSync,
    #[error("there is a synchronous peer")]
    SyncTaken,
    #[error("the peer is serial")]
    IsSerial,
    #[error("out of memory")]
    Memory,
}

impl From<Memory> for PeerError {
    ghost from_gives = { λ _ e. e ≡ error.Memory };

    fn from(_: Memory) -> PeerError {
        PeerError::Memory
    }
}
