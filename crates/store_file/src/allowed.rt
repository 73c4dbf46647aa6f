ghost use Rattle.std.specs.Prelude.{◌≡◌, true, IfOk};
ghost use Rattle.std.specs.Option.{SomeIff};
ghost use Rattle.wal_entry.specs.Frame.{is_name, is_key};
ghost use Rattle.store_file.specs.Fields.{kind_of, is_allowed, cell_of};
ghost use Rattle.store_file.specs.Steps.{fields_value};

use crate::RunCell;
use crate::fields::Fields;
use rep_types::{Bytes, CellKind, Key, Memory, Name, TextError};
use std::alloc::Global;
use std::str::from_utf8;

// The name of these bytes, if they are one.
fn name_from(alloc: Global, bytes: &[u8]) -> Result<Option<Name>, Memory>
    ensures { IfOk result (λ made. SomeIff made (is_name bytes.now ≡ true) bytes.now) }
{
    let Ok(text) = from_utf8(bytes) else {
        return Ok(None);
    };
    match Name::new(alloc, text) {
        Ok(name) => Ok(Some(name)),
        Err(TextError::Memory) => Err(Memory),
        Err(_) => Ok(None),
    }
}

// The key of these bytes, if they are one.
fn key_from(alloc: Global, bytes: &[u8]) -> Result<Option<Key>, Memory>
    ensures { IfOk result (λ made. SomeIff made (is_key bytes.now ≡ true) bytes.now) }
{
    let Ok(text) = from_utf8(bytes) else {
        return Ok(None);
    };
    match Key::new(alloc, text) {
        Ok(key) => Ok(Some(key)),
        Err(TextError::Memory) => Err(Memory),
        Err(_) => Ok(None),
    }
}

// The put or the delete of fields that are allowed.
fn kind_of(alloc: Global, fields: &Fields) -> Result<CellKind, Memory>
    ensures { IfOk result (λ kind. kind ≡ kind_of (fields_value fields.now)) }
{
    if fields.kind == 1 {
        Ok(CellKind::Put(Bytes::from_slice(alloc, fields.value)?))
    } else {
        Ok(CellKind::Erase)
    }
}

/// The cell of these fields, if they are allowed.
pub fn cell_of(alloc: Global, fields: &Fields) -> Result<Option<RunCell>, Memory>
    ensures { IfOk result (λ cell. SomeIff cell (is_allowed (fields_value fields.now) ≡ true) (cell_of (fields_value fields.now))) }
{
    let Some(row) = key_from(alloc, fields.row)? else {
        return Ok(None);
    };
    let Some(family) = name_from(alloc, fields.family)? else {
        return Ok(None);
    };
    let Some(qualifier) = name_from(alloc, fields.qualifier)? else {
        return Ok(None);
    };
    if fields.kind != 1 && fields.kind != 2 {
        return Ok(None);
    }
    let cell = RunCell {
        row,
        family,
        qualifier,
        stamp: fields.stamp,
        kind: kind_of(alloc, fields)?,
        rank: fields.rank,
    };
    Ok(Some(cell))
}
