use rep_types::{Bytes, Cluster};
use std::alloc::Global;
use std::test::Fail;
use wire_batch::{Batch, BatchError, decode_batch, encode_batch};

/// Flight 1 of peer 1 for the logs of server 1 of a, with one form: a put of `v` at timestamp 10 to row `r1`, column `f:q` of
/// table `t`, which is sequence id 2 of region 1, consumed by a, and by b once it comes there.
const BATCH: [u8; 72] = [
    0, 0, 0, 0x48, 1, 1, 0, 1, 0, 0, 0, 1, 0, 1, 0, 0, 0, 0, 0, 0x38, 3, 3, 0, 0, 0, 0, 0, 1, 0, 0,
    0, 0, 0, 0, 0, 0, 0, 0, 0, 2, 0, 0, 0, 0, 0, 0, 0, 0, 1, 0x74, 0, 2, 0x72, 0x31, 1, 1, 0x66, 1,
    0x71, 0, 0, 0, 0, 0, 0, 0, 0x0a, 1, 0, 1, 0x76, 0,
];

/// Places of a byte of the batch, another byte for it, and the first item that is broken then: its place and its field.
const BROKEN: [(usize, u8, u32, u8); 15] = [
    (0, 1, 0, 1),
    (3, 15, 0, 1),
    (3, 0x47, 16, 8),
    (3, 0x50, 72, 8),
    (4, 0, 4, 2),
    (4, 4, 4, 2),
    (5, 0, 5, 3),
    (5, 5, 5, 3),
    (7, 0, 6, 4),
    (7, 65, 6, 4),
    (11, 0, 8, 5),
    (12, 4, 12, 6),
    (13, 0, 16, 8),
    (15, 1, 14, 7),
    (20, 2, 20, 8),
];

fn is_heading(batch: &Batch) -> bool {
    batch.cluster == Cluster::A
        && batch.peer.number() == 1
        && batch.server.number() == 1
        && batch.flight == 1
        && batch.forms.len() == 1
}

// Whether the bytes are a batch with that heading, and are written again as they were.
fn is_batch(alloc: Global, bytes: &[u8]) -> Result<bool, Fail> {
    let Ok(batch) = decode_batch(alloc, bytes) else {
        return Ok(false);
    };
    let mut out = Bytes::new(alloc);
    encode_batch(&batch, &mut out)?;
    Ok(is_heading(&batch) && out.as_slice() == bytes)
}

fn is_bad(alloc: Global, bytes: &[u8], place: u32, field: u8) -> bool {
    match decode_batch(alloc, bytes) {
        Err(BatchError::BadBatch { at, rule }) => at == place && rule == field,
        _ => false,
    }
}

// Whether the batch with another byte at the place is broken there.
fn is_bad_at(alloc: Global, place: usize, byte: u8, at: u32, rule: u8) -> bool {
    let mut bytes = BATCH;
    let Some(changed) = bytes.get_mut(place) else {
        return false;
    };
    *changed = byte;
    is_bad(alloc, &bytes, at, rule)
}

// Where a batch is cut, the item that stands there is broken where the bytes end.
fn field_at(place: usize) -> u8 {
    match place {
        0..4 => 1,
        4 => 2,
        5 => 3,
        6..8 => 4,
        8..12 => 5,
        12..14 => 6,
        14..16 => 7,
        _ => 8,
    }
}

fn is_cut(alloc: Global, most: usize) -> bool {
    match BATCH.get(..most) {
        Some(bytes) => is_bad(alloc, bytes, most as u32, field_at(most)),
        None => false,
    }
}

#[test]
fn a_batch_both_ways(rt: HostRuntime) -> Result<(), Fail> {
    let alloc = rt.alloc();
    assert!(rt; is_batch(alloc, &BATCH)?);
    for (place, byte, at, rule) in BROKEN.iter() {
        assert!(rt; is_bad_at(alloc, *place, *byte, *at, *rule));
    }
    for most in 0..72usize {
        assert!(rt; is_cut(alloc, most));
    }
    Ok(())
}
