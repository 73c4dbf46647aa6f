ghost use Rattle.wal_entry.specs.Frame.{last};
ghost use Rattle.wal_entry.specs.Judging.{judge};
ghost use Rattle.wal_entry.specs.Steps.{place, Marks, Starts};

use super::cursor::{Cursor, Stop};
use super::edit::heading_of;
use super::frame::{Fields, entry_of, fields_of, frame_length_at, padding_of};
use super::write::Begun;
use rep_types::{Entry, EntryKind, Items};
use std::alloc::Global;

/// What the first items of a frame tell: a marker and the length of its frame, or all of a write
/// before its cells.
#[derive(Drop)]
pub enum Start {
    Marker { entry: Entry, length: u32 },
    Write(Begun),
}

#[tactic(auto, unfolding(crate::specs::Frame::last))]
fn marker<'a>(here: Cursor<'a>, fields: Fields, kind: EntryKind) -> Result<Start, Stop>
    ensures { Marks result (judge (last fields kind) (place here.entry)) }
{
    let ((), next) = padding_of(here)?;
    Ok(Start::Marker {
        entry: entry_of(fields, kind),
        length: next.at,
    })
}

#[tactic(auto, unfolding(crate::specs::Frame::verdict, crate::specs::Frame::after_length, crate::specs::Frame::body, crate::specs::Frame::edit))]
pub fn start_of(alloc: Global, bytes: &[u8]) -> Result<Start, Stop>
    ensures { Starts result bytes.now }
{
    let first = Cursor {
        at: 0,
        end: 8224,
        rest: bytes,
    };
    let (end, next) = frame_length_at(first)?;
    let behind = Cursor {
        at: next.at,
        end,
        rest: next.rest,
    };
    let (fields, body) = match fields_of(behind) {
        Ok(read) => read,
        Err(stop) => return Err(stop),
    };
    match fields.kind {
        1 => marker(body, fields, EntryKind::Opened),
        2 => marker(body, fields, EntryKind::Closed),
        _ => {
            let (heading, next) = heading_of(alloc, body)?;
            Ok(Start::Write(Begun {
                at: next.at,
                end: next.end,
                fields,
                heading,
                cells: Items::new(alloc),
            }))
        }
    }
}
