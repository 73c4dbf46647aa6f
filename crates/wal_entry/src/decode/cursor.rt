ghost use Rattle.std.specs.Prelude.{◌≡◌, ◌≤◌, ◌<◌, ℕ, slice_index};
ghost use Rattle.wal_entry.specs.declared.decode.cursor.Stop.TheVariants.{Memory as OutOfMemory};

use rep_types::Memory;

/// A place in a frame: how far it is from the first byte, where the frame ends, and the bytes from
/// the place on.
#[derive(Clone, Copy)]
pub struct Cursor<'a> {
    pub at: u32,
    pub end: u32,
    pub rest: &'a [u8],
    pub ghost within: { at ≤ end },
    pub ghost most: { end ≤ 8224 },
    pub ghost bytes: { (i : ℕ) → slice_index rest.now i < 256 },
}

/// Why a frame isn't read on.
#[derive(Drop)]
pub enum Stop {
    Bad { at: u32, rule: u8 },
    /// The bytes end in an item, which would end there.
    Short { until: u32 },
    Memory,
}

impl From<Memory> for Stop {
    ghost from_gives = { λ _ e. e ≡ OutOfMemory };

    fn from(_: Memory) -> Stop {
        Stop::Memory
    }
}
