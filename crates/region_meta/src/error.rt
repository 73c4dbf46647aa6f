ghost use Rattle.std.specs.Prelude.{◌≡◌};
ghost use Rattle.region_meta.specs.declared.error.MetaError.TheVariants as error;

use rep_types::{Memory, PlaceOf};
use thiserror::Error;

/// Why a call changes nothing.
#[derive(Clone, Copy, Debug, PartialEq, Eq, Error)]
pub enum MetaError {
    #[error("the table is there")]
    Exists,
    #[error("no such region")]
    NoRegion,
    #[error("the region is {have:?}")]
    WrongPlace { have: PlaceOf },
    #[error("the region's last commit is no close marker")]
    NotClosed,
    #[error("the regions don't touch")]
    NotAdjacent,
    #[error("the key doesn't split the region")]
    BadKey,
    #[error("more than {limit} regions")]
    TooMany { limit: u32 },
    #[error("out of memory")]
    Memory,
}

impl From<Memory> for MetaError {
    ghost from_gives = { λ _ e. e ≡ error.Memory };

    fn from(_: Memory) -> MetaError {
        MetaError::Memory
    }
}
