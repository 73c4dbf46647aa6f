use rep_types::Bytes;
use std::alloc::Global;
use std::test::Fail;
use wal_entry::{Decoded, decode_frame, encode_frame};

/// A put of `v` at timestamp 10 to row `r1`, column `f:q` of table `t`: sequence id 2 of region 1,
/// consumed by cluster a.
const PUT: [u8; 56] = [
    0, 0, 0, 0x38, 3, 1, 0, 0, 0, 0, 0, 1, 0, 0, 0, 0, 0, 0, 0, 0, 0, 0, 0, 2, 0, 0, 0, 0, 0, 0, 0,
    0, 1, 0x74, 0, 2, 0x72, 0x31, 1, 1, 0x66, 1, 0x71, 0, 0, 0, 0, 0, 0, 0, 0x0a, 1, 0, 1, 0x76, 0,
];

/// A delete of `f:q` and an empty put of `f:p` at timestamp 10 in row `r.1` of table `t`: sequence
/// id 9 of region 7, consumed by a and c, through peer 4 from the last id of region 4,096 of c.
const TWO_CELLS: [u8; 72] = [
    0, 0, 0, 0x48, 3, 5, 4, 3, 0, 0, 0, 7, 0, 0, 0x10, 0, 0, 0, 0, 0, 0, 0, 0, 9, 0xff, 0xff, 0xff,
    0xff, 0xff, 0xff, 0xff, 0xff, 1, 0x74, 0, 3, 0x72, 0x2e, 0x31, 2, 1, 0x66, 1, 0x71, 0, 0, 0, 0,
    0, 0, 0, 0x0a, 2, 1, 0x66, 1, 0x70, 0, 0, 0, 0, 0, 0, 0, 0x0a, 1, 0, 0, 0, 0, 0, 0,
];

/// The opening of region 4,096 with sequence id 1, consumed by all three clusters.
const OPENED: [u8; 32] = [
    0, 0, 0, 0x20, 1, 7, 0, 0, 0, 0, 0x10, 0, 0, 0, 0, 0, 0, 0, 0, 0, 0, 0, 0, 1, 0, 0, 0, 0, 0, 0,
    0, 0,
];

/// The closing of region 2 with a long sequence id, consumed by c.
const CLOSED: [u8; 32] = [
    0, 0, 0, 0x20, 2, 4, 0, 0, 0, 0, 0, 2, 0, 0, 0, 0, 1, 2, 3, 4, 5, 6, 7, 8, 0, 0, 0, 0, 0, 0, 0,
    0,
];

// Whether the bytes are a frame of this region's entry with these marks, and are written again as they were.
fn is_frame(alloc: Global, bytes: &[u8], region: u32, seq: u64, marks: u8) -> Result<bool, Fail> {
    let mut followed = Bytes::from_slice(alloc, bytes)?;
    followed.extend_from_slice(&[3, 0])?;
    let Decoded::Frame { entry, length } = decode_frame(alloc, followed.as_slice())? else {
        return Ok(false);
    };
    let mut out = Bytes::new(alloc);
    encode_frame(&entry, &mut out)?;
    let is_entry = entry.region.number() == region && entry.seq == seq && entry.marks == marks;
    Ok(is_entry && length as usize == bytes.len() && out.as_slice() == bytes)
}

#[test]
fn frames_both_ways(rt: HostRuntime) -> Result<(), Fail> {
    let alloc = rt.alloc();
    assert!(rt; is_frame(alloc, &PUT, 1, 2, 1)?);
    assert!(rt; is_frame(alloc, &TWO_CELLS, 7, 9, 5)?);
    assert!(rt; is_frame(alloc, &OPENED, 4096, 1, 7)?);
    assert!(rt; is_frame(alloc, &CLOSED, 2, 0x0102_0304_0506_0708, 4)?);
    Ok(())
}

fn is_bad(alloc: Global, bytes: &[u8], place: u32, field: u8) -> Result<bool, Fail> {
    match decode_frame(alloc, bytes)? {
        Decoded::Bad { at, rule } => Ok(at == place && rule == field),
        _ => Ok(false),
    }
}

/// A byte of a put that is changed, and the place and field of what is broken then. The last length fits no field of the
/// body, or leaves too much padding.
static BROKEN: [(usize, u8, u32, u8); 31] = [
    (3, 0x39, 0, 1),
    (3, 0x20, 32, 10),
    (3, 0x30, 43, 10),
    (3, 0x40, 55, 11),
    (4, 1, 4, 2),
    (4, 4, 4, 2),
    (5, 0, 5, 3),
    (5, 8, 5, 3),
    (6, 5, 6, 4),
    (6, 1, 7, 5),
    (7, 1, 7, 5),
    (10, 0x10, 8, 6),
    (11, 0, 8, 6),
    (15, 1, 12, 7),
    (23, 0, 16, 8),
    (31, 1, 24, 9),
    (32, 0, 32, 10),
    (32, 17, 32, 10),
    (33, b'T', 33, 10),
    (33, 0xff, 33, 10),
    (35, 0, 34, 10),
    (36, b'R', 36, 10),
    (38, 0, 38, 10),
    (38, 2, 55, 10),
    (40, b'.', 40, 10),
    (42, b'.', 42, 10),
    (51, 3, 51, 10),
    (52, 0x40, 52, 10),
    (52, 0x10, 54, 10),
    (54, b' ', 54, 10),
    (55, 1, 55, 11),
];

// Whether a put whose byte at the place is another is broken there.
fn is_bad_put(alloc: Global, place: usize, byte: u8, at: u32, rule: u8) -> Result<bool, Fail> {
    let mut bytes = PUT;
    let Some(changed) = bytes.get_mut(place) else {
        return Ok(false);
    };
    *changed = byte;
    is_bad(alloc, &bytes, at, rule)
}

#[test]
fn the_first_broken_item(rt: HostRuntime) -> Result<(), Fail> {
    for (place, byte, at, rule) in BROKEN.iter() {
        assert!(rt; is_bad_put(rt.alloc(), *place, *byte, *at, *rule)?);
    }
    Ok(())
}
