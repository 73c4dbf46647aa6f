ghost use Rattle.std.specs.Prelude.{◌≡◌, true, IfOk};
ghost use Rattle.std.specs.Option.{SomeIff};
ghost use Rattle.wal_entry.specs.Judging.{judge};
ghost use Rattle.wal_entry.specs.Frame.{value_byte, is_value, is_name, is_key, has_column, name, key, qualifier, value};
ghost use Rattle.wal_entry.specs.Steps.{place, Reads};

use super::cursor::{Cursor, Stop};
use super::item::{item, number};
use rep_types::{Bytes, Cell, Key, Memory, Name, TextError};
use std::alloc::Global;
use std::str::from_utf8;

fn is_value_byte(b: u8) -> bool
    ensures { result ≡ value_byte b }
{
    b.is_ascii_alphanumeric() || b == b'_' || b == b'.'
}

fn is_value(bytes: &[u8]) -> bool
    ensures { result ≡ is_value bytes.now }
{
    bytes.iter().all(|b| is_value_byte(*b))
}

fn has_column(cells: &[Cell], family: &Name, qualifier: &Name) -> bool
    ensures { result ≡ has_column cells.now family.now qualifier.now }
{
    cells.iter().any(|cell| cell.family == *family && cell.qualifier == *qualifier)
}

// The name of these bytes, if they are one.
fn name_from(alloc: Global, bytes: &[u8]) -> Result<Option<Name>, Memory>
    ensures { IfOk result (λ made. SomeIff made (is_name bytes.now ≡ true) bytes.now) }
{
    let Ok(text) = from_utf8(bytes) else {
        return Ok(None);
    };
    match Name::new(alloc, text) {
        Ok(name) => Ok(Some(name)),
        Err(TextError::Memory) => Err(Memory),
        Err(_) => Ok(None),
    }
}

// The key of these bytes, if they are one.
fn key_from(alloc: Global, bytes: &[u8]) -> Result<Option<Key>, Memory>
    ensures { IfOk result (λ made. SomeIff made (is_key bytes.now ≡ true) bytes.now) }
{
    let Ok(text) = from_utf8(bytes) else {
        return Ok(None);
    };
    match Key::new(alloc, text) {
        Ok(key) => Ok(Some(key)),
        Err(TextError::Memory) => Err(Memory),
        Err(_) => Ok(None),
    }
}

#[tactic(auto, unfolding(crate::specs::Frame::name))]
pub fn name_of<'a>(alloc: Global, here: Cursor<'a>) -> Result<(Name, Cursor<'a>), Stop>
    ensures { Reads (λ x. x) result (judge name (place here.entry)) }
{
    let (size, text) = number(here, 10, 1, 1, 16)?;
    let (bytes, next) = item(text, 10, size as u32)?;
    match name_from(alloc, bytes)? {
        Some(name) => Ok((name, next)),
        None => Err(Stop::Bad {
            at: text.at,
            rule: 10,
        }),
    }
}

#[tactic(auto, unfolding(crate::specs::Frame::key))]
pub fn key_of<'a>(alloc: Global, here: Cursor<'a>) -> Result<(Key, Cursor<'a>), Stop>
    ensures { Reads (λ x. x) result (judge key (place here.entry)) }
{
    let (size, text) = number(here, 10, 2, 1, 64)?;
    let (bytes, next) = item(text, 10, size as u32)?;
    match key_from(alloc, bytes)? {
        Some(key) => Ok((key, next)),
        None => Err(Stop::Bad {
            at: text.at,
            rule: 10,
        }),
    }
}

#[tactic(auto, unfolding(crate::specs::Frame::qualifier))]
pub fn qualifier_of<'a>(
    alloc: Global,
    here: Cursor<'a>,
    earlier: &[Cell],
    family: &Name,
) -> Result<(Name, Cursor<'a>), Stop>
    ensures { Reads (λ x. x) result (judge (qualifier earlier.now family.now) (place here.entry)) }
{
    let (size, text) = number(here, 10, 1, 1, 16)?;
    let (bytes, next) = item(text, 10, size as u32)?;
    match name_from(alloc, bytes)? {
        Some(name) if !has_column(earlier, family, &name) => Ok((name, next)),
        _ => Err(Stop::Bad {
            at: text.at,
            rule: 10,
        }),
    }
}

#[tactic(auto, unfolding(crate::specs::Frame::value))]
pub fn value_of<'a>(alloc: Global, here: Cursor<'a>) -> Result<(Bytes, Cursor<'a>), Stop>
    ensures { Reads (λ x. x) result (judge value (place here.entry)) }
{
    let (size, text) = number(here, 10, 2, 0, 16384)?;
    let (bytes, next) = item(text, 10, size as u32)?;
    if !is_value(bytes) {
        return Err(Stop::Bad {
            at: text.at,
            rule: 10,
        });
    }
    Ok((Bytes::from_slice(alloc, bytes)?, next))
}
