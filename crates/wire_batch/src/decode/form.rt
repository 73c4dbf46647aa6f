ghost use Rattle.std.specs.Prelude.{◌≡◌, ◌≤◌, ◌+◌, nat_lt, []};
ghost use Rattle.wire_batch.specs.Answers.{place, Reads};
ghost use Rattle.wire_batch.specs.Grammar.{is_form, runs_over, form, forms};

use super::cursor::Cursor;
use crate::BatchError;
use rep_types::{Entries, Entry, EntryKind, Items};
use std::alloc::Global;
use wal_entry::{Decoded, decode_frame, frame_length};

fn is_form(entry: &Entry) -> bool
    ensures { result ≡ is_form entry.now }
{
    matches!(entry.kind, EntryKind::Write(_)) && entry.origin.is_none()
}

// A frame of this length at the place ends past the batch.
fn ends_past(at: u32, length: u32, end: u32) -> bool
    ensures { result ≡ nat_lt end (at + length) }
{
    u64::from(end) < u64::from(at) + u64::from(length)
}

// The frame's length stands, and by it the frame would end past the batch.
fn runs_over<'a>(here: Cursor<'a>, end: u32) -> bool
    ensures { result ≡ runs_over end (place here.entry) }
{
    match frame_length(here.rest) {
        Some(length) => ends_past(here.at, length, end),
        None => false,
    }
}

#[tactic(auto, unfolding(crate::specs::Grammar::form))]
fn form_of<'a>(alloc: Global, here: Cursor<'a>, end: u32) -> Result<(Entry, Cursor<'a>), BatchError>
    requires { end ≤ 65552 }
    ensures { Reads result (form end (place here.entry)) }
{
    match decode_frame(alloc, here.rest)? {
        Decoded::Bad { at, .. } => Err(BatchError::BadBatch {
            at: here.at + at,
            rule: 8,
        }),
        Decoded::Short => {
            let at = if runs_over(here, end) {
                here.at
            } else {
                here.at + here.rest.len() as u32
            };
            Err(BatchError::BadBatch { at, rule: 8 })
        }
        Decoded::Frame { entry, length } => {
            if ends_past(here.at, length, end) || !is_form(&entry) {
                return Err(BatchError::BadBatch {
                    at: here.at,
                    rule: 8,
                });
            }
            let at = here.at + length;
            let (_, rest) = here.rest.split_at(length as usize);
            Ok((entry, Cursor { at, rest }))
        }
    }
}

// So many forms.
pub fn forms_of<'a>(
    alloc: Global,
    here: Cursor<'a>,
    end: u32,
    count: u16,
) -> Result<(Entries, Cursor<'a>), BatchError>
    requires { end ≤ 65552 }
    ensures { Reads result (forms end count [] (place here.entry)) }
{
    let mut forms = Items::new(alloc);
    let mut here = here;
    for _ in 0..count {
        let (form, next) = match form_of(alloc, here, end) {
            Ok(read) => read,
            Err(stop) => return Err(stop),
        };
        forms.push(form)?;
        here = next;
    }
    Ok((forms, here))
}
