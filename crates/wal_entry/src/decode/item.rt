ghost use Rattle.std.specs.Prelude.{◌≡◌, ◌≤◌, ◌+◌, length, IfOk};
ghost use Rattle.wal_entry.specs.Judging.{standing, judge};
ghost use Rattle.wal_entry.specs.Frame.{number};
ghost use Rattle.wal_entry.specs.Steps.{place, Reads};

use super::cursor::{Cursor, Stop};
use byteorder::{BigEndian, ByteOrder};

// The bytes of an item, whatever they are.
#[tactic(auto, unfolding(crate::specs::Judging::standing))]
pub fn item<'a>(here: Cursor<'a>, rule: u8, size: u32) -> Result<(&'a [u8], Cursor<'a>), Stop>
    ensures reads { Reads (λ bytes. bytes.now) result (standing rule size (place here.entry)) }
    ensures size { IfOk result (λ x. length x.0.now ≡ size) }
    ensures next { IfOk result (λ x. x.1.at ≡ here.entry.at + size) }
{
    let bad = Stop::Bad { at: here.at, rule };
    let Some(at) = here.at.checked_add(size) else {
        return Err(bad);
    };
    if here.end < at {
        return Err(bad);
    }
    let size = size as usize;
    if here.rest.len() < size {
        return Err(Stop::Short { until: at });
    }
    let (bytes, rest) = here.rest.split_at(size);
    Ok((
        bytes,
        Cursor {
            at,
            end: here.end,
            rest,
        },
    ))
}

// A number of so many bytes, from low to high.
#[tactic(auto, unfolding(crate::specs::Frame::number))]
pub fn number<'a>(
    here: Cursor<'a>,
    rule: u8,
    size: u32,
    low: u64,
    high: u64,
) -> Result<(u64, Cursor<'a>), Stop>
    requires some { 1 ≤ size }
    requires few { size ≤ 8 }
    ensures reads { Reads (λ n. n) result (judge (number rule size low high) (place here.entry)) }
    ensures least { IfOk result (λ x. low ≤ x.0) }
    ensures most { IfOk result (λ x. x.0 ≤ high) }
    ensures next { IfOk result (λ x. x.1.at ≡ here.entry.at + size) }
{
    let (bytes, next) = item(here, rule, size)?;
    let n = BigEndian::read_uint(bytes, size as usize);
    if low <= n && n <= high {
        Ok((n, next))
    } else {
        Err(Stop::Bad { at: here.at, rule })
    }
}
