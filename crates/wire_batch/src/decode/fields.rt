ghost use Rattle.std.specs.Prelude.{◌≡◌, ◌≤◌, ◌+◌, IfOk};
ghost use Rattle.wire_batch.specs.Answers.{place, Reads};
ghost use Rattle.wire_batch.specs.Grammar.{heading};
ghost use Rattle.wire_batch.specs.Reading.{number};

use super::cursor::Cursor;
use crate::BatchError;
use crate::heading::Heading;
use byteorder::{BigEndian, ByteOrder};
use rep_types::{PeerId, ServerId};
use wal_entry::cluster_of;

// A number of so many bytes, from low to high, in the first 16 bytes.
#[tactic(auto, unfolding(crate::specs::Reading::number))]
fn number<'a>(
    here: Cursor<'a>,
    rule: u8,
    size: u32,
    low: u64,
    high: u64,
) -> Result<(u64, Cursor<'a>), BatchError>
    requires some { 1 ≤ size }
    requires few { size ≤ 8 }
    requires first { here.at + size ≤ 16 }
    ensures reads { Reads result (number rule size low high (place here.entry)) }
    ensures least { IfOk result (λ x. low ≤ x.0) }
    ensures most { IfOk result (λ x. x.0 ≤ high) }
    ensures next { IfOk result (λ x. x.1.at ≡ here.entry.at + size) }
{
    let count = size as usize;
    if here.rest.len() < count {
        return Err(BatchError::BadBatch {
            at: here.at + here.rest.len() as u32,
            rule,
        });
    }
    let (bytes, rest) = here.rest.split_at(count);
    let n = BigEndian::read_uint(bytes, count);
    if low <= n && n <= high {
        Ok((
            n,
            Cursor {
                at: here.at + size,
                rest,
            },
        ))
    } else {
        Err(BatchError::BadBatch { at: here.at, rule })
    }
}

#[tactic(auto, unfolding(crate::specs::Grammar::heading))]
pub fn heading_of<'a>(here: Cursor<'a>) -> Result<(Heading, Cursor<'a>), BatchError>
    requires { here.at ≡ 0 }
    ensures reads { Reads result (heading (place here.entry)) }
    ensures most { IfOk result (λ x. x.0.length ≤ 65552) }
    ensures least { IfOk result (λ x. 16 ≤ x.0.length) }
    ensures next { IfOk result (λ x. x.1.at ≡ 16) }
{
    let (length, next) = number(here, 1, 4, 16, 65552)?;
    let (cluster, next) = number(next, 2, 1, 1, 3)?;
    let (peer, next) = number(next, 3, 1, 1, 4)?;
    let (server, next) = number(next, 4, 2, 1, 64)?;
    let (flight, next) = number(next, 5, 4, 1, u64::from(u32::MAX))?;
    let (count, next) = number(next, 6, 2, 0, 1000)?;
    let (_, next) = number(next, 7, 2, 0, 0)?;
    let heading = Heading {
        length: length as u32,
        cluster: cluster_of(cluster),
        peer: PeerId::new(peer as u32).unwrap(),
        server: ServerId::new(server as u32).unwrap(),
        flight: flight as u32,
        count: count as u16,
    };
    Ok((heading, next))
}
