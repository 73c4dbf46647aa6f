ghost use Rattle.std.specs.Prelude.{◌≤◌, ◌<◌, ℕ, slice_index};

/// A place in a batch: how far it is from the first byte, and the bytes from the place on.
#[derive(Clone, Copy)]
pub struct Cursor<'a> {
    pub at: u32,
    pub rest: &'a [u8],
    pub ghost most: { at ≤ 65552 },
    pub ghost bytes: { (i : ℕ) → slice_index rest.now i < 256 },
}
