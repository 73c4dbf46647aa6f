ghost use Rattle.std.specs.Prelude.{◌≡◌, ◌≤◌, ◌+◌, ◌++◌, length, take, replicate, OnOk, OnErr};
ghost use Rattle.wal_entry.specs.Framed.{IsFramed};
ghost use Rattle.wal_entry.specs.Length.{rounded, body_length, frame_length, frame_length_of};
ghost use Rattle.wal_entry.specs.Spelling.{cell_kind_spelling, cell_spelling, cells_spelling, edit_spelling, body_spelling, kind_number, origin_peer, origin_cluster, origin_region, origin_seq, fields_spelling, padding_spelling, spelling};

use crate::spell::{cluster_number, push_name, push_text};
use rep_types::{Bytes, Cell, CellKind, Edit, Entry, EntryKind, Memory, Origin};

// Each push adds bytes at the end. Where memory runs out it may have added some of them.

fn push_cell_kind(out: &mut Bytes, kind: &CellKind) -> Result<(), Memory>
    ensures ok { OnOk result (out.new ≡ out.old ++ cell_kind_spelling kind.now) }
    ensures err { OnErr result (take (length out.old) out.new ≡ out.old) }
{
    match kind {
        CellKind::Put(value) => {
            out.push(1)?;
            push_text(out, value.as_slice())
        }
        CellKind::Erase => out.push(2),
    }
}

fn push_cell(out: &mut Bytes, cell: &Cell) -> Result<(), Memory>
    ensures ok { OnOk result (out.new ≡ out.old ++ cell_spelling cell.now) }
    ensures err { OnErr result (take (length out.old) out.new ≡ out.old) }
{
    push_name(out, cell.family.as_str())?;
    push_name(out, cell.qualifier.as_str())?;
    out.extend_from_slice(&cell.stamp.to_be_bytes())?;
    push_cell_kind(out, &cell.kind)
}

fn push_cells(out: &mut Bytes, cells: &[Cell]) -> Result<(), Memory>
    ensures ok { OnOk result (out.new ≡ out.old ++ cells_spelling cells.now) }
    ensures err { OnErr result (take (length out.old) out.new ≡ out.old) }
{
    for cell in cells {
        push_cell(out, cell)?;
    }
    Ok(())
}

fn push_edit(out: &mut Bytes, edit: &Edit) -> Result<(), Memory>
    ensures ok { OnOk result (out.new ≡ out.old ++ edit_spelling edit.now) }
    ensures err { OnErr result (take (length out.old) out.new ≡ out.old) }
{
    push_name(out, edit.table().as_str())?;
    push_text(out, edit.row().as_str().as_bytes())?;
    out.push((edit.cells().len() % 256) as u8)?;
    push_cells(out, edit.cells().as_slice())
}

fn body_length(kind: &EntryKind) -> u32
    ensures value { result ≡ body_length kind.now }
    ensures most { result ≤ 8192 }
{
    match kind {
        EntryKind::Write(edit) => edit.length(),
        _ => 0,
    }
}

/// The length of the frame of an entry of this kind in bytes: a multiple of 8, from 32 to 8,224.
pub fn kind_length(kind: &EntryKind) -> u32
    ensures value { result ≡ frame_length kind.now }
    ensures least { 32 ≤ result }
    ensures most { result ≤ 8224 }
{
    32 + (body_length(kind) + 7) / 8 * 8
}

/// The length of the entry's frame in bytes: a multiple of 8, from 32 to 8,224.
pub fn entry_length(entry: &Entry) -> u32
    ensures value { result ≡ frame_length_of entry.now }
    ensures least { 32 ≤ result }
    ensures most { result ≤ 8224 }
{
    kind_length(&entry.kind)
}

fn push_body(out: &mut Bytes, kind: &EntryKind) -> Result<(), Memory>
    ensures ok { OnOk result (out.new ≡ out.old ++ body_spelling kind.now) }
    ensures err { OnErr result (take (length out.old) out.new ≡ out.old) }
{
    match kind {
        EntryKind::Write(edit) => push_edit(out, edit),
        _ => Ok(()),
    }
}

fn kind_number(kind: &EntryKind) -> u8
    ensures { result ≡ kind_number kind.now }
{
    match kind {
        EntryKind::Opened => 1,
        EntryKind::Closed => 2,
        EntryKind::Write(_) => 3,
    }
}

// Peer, cluster, region and sequence id of an origin, or zeros.
fn origin_fields(origin: Option<Origin>) -> (u8, u8, u32, u64)
    ensures { result ≡ (origin_peer origin, origin_cluster origin, origin_region origin, origin_seq origin) }
{
    match origin {
        None => (0, 0, 0, 0),
        Some(o) => (
            o.peer.number() as u8,
            cluster_number(o.entry.cluster),
            o.entry.region.number(),
            o.entry.seq,
        ),
    }
}

// The fields before the body.
fn push_fields(out: &mut Bytes, entry: &Entry, size: u32) -> Result<(), Memory>
    requires { size ≡ frame_length_of entry.now }
    ensures ok { OnOk result (out.new ≡ out.old ++ fields_spelling entry.now) }
    ensures err { OnErr result (take (length out.old) out.new ≡ out.old) }
{
    let (peer, cluster, region, seq) = origin_fields(entry.origin);
    out.extend_from_slice(&size.to_be_bytes())?;
    out.extend_from_slice(&[kind_number(&entry.kind), entry.marks, peer, cluster])?;
    out.extend_from_slice(&entry.region.number().to_be_bytes())?;
    out.extend_from_slice(&region.to_be_bytes())?;
    out.extend_from_slice(&entry.seq.to_be_bytes())?;
    out.extend_from_slice(&seq.to_be_bytes())
}

fn push_zeros(out: &mut Bytes, count: usize) -> Result<(), Memory>
    requires { count ≤ 7 }
    ensures ok { OnOk result (out.new ≡ out.old ++ replicate count 0) }
    ensures err { OnErr result (take (length out.old) out.new ≡ out.old) }
{
    out.extend_from_slice(&[0; 7][..count])
}

#[tactic(auto, unfolding(crate::specs::Spelling::spelling))]
fn push_frame(out: &mut Bytes, entry: &Entry) -> Result<(), Memory>
    ensures ok { OnOk result (out.new ≡ out.old ++ spelling entry.now) }
    ensures err { OnErr result (take (length out.old) out.new ≡ out.old) }
{
    let size = entry_length(entry);
    let body = body_length(&entry.kind);
    push_fields(out, entry, size)?;
    push_body(out, &entry.kind)?;
    push_zeros(out, (size - 32 - body) as usize)
}

/// Adds the entry's one frame at the end, 32 to 8,224 bytes.
pub fn encode_frame(entry: &Entry, out: &mut Bytes) -> Result<(), Memory>
    requires { IsFramed entry.now }
    ensures ok { OnOk result (out.new ≡ out.old ++ spelling entry.now) }
    ensures err { OnErr result (out.new ≡ out.old) }
{
    let before = out.len();
    let pushed = push_frame(out, entry);
    if pushed.is_err() {
        out.truncate(before);
    }
    pushed
}
