ghost use Rattle.std.specs.Prelude.{◌≡◌, ◌≤◌, ◌+◌, ◌==◌, IfOk};
ghost use Rattle.std.specs.List.{list_all};
ghost use Rattle.wal_entry.specs.Judging.{judge};
ghost use Rattle.wal_entry.specs.Frame.{padding, origin_of, of_origin, from_region, fields, entry_of, frame_length};
ghost use Rattle.wal_entry.specs.Steps.{place, Reads};

use super::cursor::{Cursor, Stop};
use super::item::{item, number};
use crate::spell::cluster_of;
use byteorder::{BigEndian, ByteOrder};
use rep_types::{Entry, EntryId, EntryKind, Origin, PeerId, RegionId};

/// The fields after the length.
#[derive(Clone, Copy)]
pub struct Fields {
    pub kind: u64,
    pub marks: u8,
    pub region: RegionId,
    pub seq: u64,
    pub origin: Option<Origin>,
}

fn is_zero(bytes: &[u8]) -> bool
    ensures { result ≡ list_all (λ b. b == 0) bytes.now }
{
    bytes.iter().all(|b| *b == 0)
}

#[tactic(auto, unfolding(crate::specs::Frame::padding))]
pub fn padding_of<'a>(here: Cursor<'a>) -> Result<((), Cursor<'a>), Stop>
    ensures { Reads (λ x. x) result (judge padding (place here.entry)) }
{
    let size = here.end - here.at;
    if 7 < size {
        return Err(Stop::Bad {
            at: here.at,
            rule: 11,
        });
    }
    let (zeros, next) = item(here, 11, size)?;
    if !is_zero(zeros) {
        return Err(Stop::Bad {
            at: here.at,
            rule: 11,
        });
    }
    Ok(((), next))
}

// The origin of a peer that isn't 0.
fn origin_of(peer: u64, cluster: u64, region: u64, seq: u64) -> Option<Origin>
    requires peer { peer ≤ 4 }
    requires region { region ≤ 4096 }
    requires some { 1 ≤ peer → 1 ≤ region }
    ensures { result ≡ origin_of peer cluster region seq }
{
    let peer = PeerId::new(peer as u32)?;
    let region = RegionId::new(region as u32)?;
    let cluster = cluster_of(cluster);
    let entry = EntryId {
        cluster,
        region,
        seq,
    };
    Some(Origin { peer, entry })
}

/// The entry of these fields and a body.
pub fn entry_of(fields: Fields, kind: EntryKind) -> Entry
    ensures { result ≡ entry_of fields kind }
{
    Entry {
        region: fields.region,
        seq: fields.seq,
        kind,
        marks: fields.marks,
        origin: fields.origin,
    }
}

// A part of an origin, which is 0 exactly where the peer is.
#[tactic(auto, unfolding(crate::specs::Frame::of_origin))]
fn of_origin<'a>(
    here: Cursor<'a>,
    peer: u64,
    rule: u8,
    size: u32,
    most: u64,
) -> Result<(u64, Cursor<'a>), Stop>
    requires some { 1 ≤ size }
    requires few { size ≤ 8 }
    ensures reads { Reads (λ n. n) result (judge (of_origin peer rule size most) (place here.entry)) }
    ensures least { IfOk result (λ x. 1 ≤ peer → 1 ≤ x.0) }
    ensures most { IfOk result (λ x. x.0 ≤ most) }
    ensures next { IfOk result (λ x. x.1.at ≡ here.entry.at + size) }
{
    if peer == 0 {
        number(here, rule, size, 0, 0)
    } else {
        number(here, rule, size, 1, most)
    }
}

// The fields from the region on.
#[tactic(auto, unfolding(crate::specs::Frame::from_region))]
fn from_region<'a>(
    here: Cursor<'a>,
    kind: u64,
    marks: u8,
    peer: u64,
    cluster: u64,
) -> Result<(Fields, Cursor<'a>), Stop>
    requires peer { peer ≤ 4 }
    ensures { Reads (λ x. x) result (judge (from_region kind marks peer cluster) (place here.entry)) }
{
    let (region, next) = number(here, 6, 4, 1, 4096)?;
    let (origin_region, next) = of_origin(next, peer, 7, 4, 4096)?;
    let (seq, next) = number(next, 8, 8, 1, u64::MAX)?;
    let (origin_seq, next) = of_origin(next, peer, 9, 8, u64::MAX)?;
    let fields = Fields {
        kind,
        marks,
        region: RegionId::new(region as u32).unwrap(),
        seq,
        origin: origin_of(peer, cluster, origin_region, origin_seq),
    };
    Ok((fields, next))
}

// The fields after the length.
#[tactic(auto, unfolding(crate::specs::Frame::fields))]
pub fn fields_of<'a>(here: Cursor<'a>) -> Result<(Fields, Cursor<'a>), Stop>
    ensures { Reads (λ x. x) result (judge (fields here.entry.end) (place here.entry)) }
{
    let least = if here.end == 32 { 1 } else { 3 };
    let (kind, next) = number(here, 2, 1, least, 3)?;
    let (marks, next) = number(next, 3, 1, 1, 7)?;
    let most = if kind == 3 { 4 } else { 0 };
    let (peer, next) = number(next, 4, 1, 0, most)?;
    let (cluster, next) = of_origin(next, peer, 5, 1, 3)?;
    from_region(next, kind, marks as u8, peer, cluster)
}

#[tactic(auto, unfolding(crate::specs::Frame::frame_length))]
pub fn frame_length_at<'a>(here: Cursor<'a>) -> Result<(u32, Cursor<'a>), Stop>
    ensures reads { Reads (λ n. n) result (judge frame_length (place here.entry)) }
    ensures most { IfOk result (λ x. x.0 ≤ 8224) }
    ensures least { IfOk result (λ x. 32 ≤ x.0) }
    ensures next { IfOk result (λ x. x.1.at ≡ here.entry.at + 4) }
{
    let (bytes, next) = item(here, 1, 4)?;
    let length = BigEndian::read_u32(bytes);
    if 32 <= length && length <= 8224 && length % 8 == 0 {
        Ok((length, next))
    } else {
        Err(Stop::Bad {
            at: here.at,
            rule: 1,
        })
    }
}
