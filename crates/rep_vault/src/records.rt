ghost use Rattle.std.specs.Prelude.{◌≡◌, true, None, Some, IfOk, OnOk, OnErr, is_some};
ghost use Rattle.std.specs.Option.{option_copied};
ghost use Rattle.std.specs.BTreeMap.{get_by_text};
ghost use Rattle.rep_vault.specs.Folders.{record_in, KeepsRecords, KeepsSlots, HasSlots, MakesChanges};

use crate::Change;
use rep_types::{Bytes, Duplicate, Memory, Text};
use std::alloc::Global;
use std::collections::BTreeMap;

/// Records in memory by their keys. A key without a value has no record.
pub type Records = BTreeMap<String, Option<Bytes>>;

/// The record of a key.
pub fn record<'a>(records: &'a Records, key: &str) -> Option<&'a Bytes>
    ensures { option_copied result ≡ record_in records.now key.now }
{
    match records.get(key) {
        Some(value) => value.as_ref(),
        None => None,
    }
}

fn copy_value(alloc: Global, value: &Option<Bytes>) -> Result<Option<Bytes>, Memory>
    ensures { IfOk result (λ copy. copy ≡ value.now) }
{
    match value {
        Some(bytes) => Ok(Some(bytes.copy(alloc)?)),
        None => Ok(None),
    }
}

fn copy_change(alloc: Global, change: &Change) -> Result<Change, Memory>
    ensures { IfOk result (λ copy. copy ≡ change.now) }
{
    Ok(Change {
        key: Text::new(alloc, change.key.as_str())?,
        value: copy_value(alloc, &change.value)?,
    })
}

fn copy_changes(alloc: Global, changes: &[Change]) -> Result<Vec<Change>, Memory>
    ensures { IfOk result (λ copies. copies.items ≡ changes.now) }
{
    let mut copies = Vec::new(alloc);
    for change in changes {
        copies.push(copy_change(alloc, change)?)?;
    }
    Ok(copies)
}

/// Makes a place for the value of a key.
fn make_slot(alloc: Global, records: &mut Records, key: &str) -> Result<(), Memory>
    ensures made { OnOk result (is_some (get_by_text records.new key.now) ≡ true) }
    ensures slots { KeepsSlots records.old records.new }
    ensures kept { KeepsRecords records.old records.new }
{
    if records.contains_key(key) {
        return Ok(());
    }
    let name = String::from_str(alloc, key)?;
    records.insert(name, None)?;
    Ok(())
}

fn make_slots(alloc: Global, records: &mut Records, changes: &[Change]) -> Result<(), Memory>
    ensures made { OnOk result (HasSlots changes.now records.new) }
    ensures kept { KeepsRecords records.old records.new }
{
    for change in changes {
        make_slot(alloc, records, change.key.as_str())?;
    }
    Ok(())
}

/// Makes the changes, for which there are places, in order.
fn fill(records: &mut Records, changes: Vec<Change>)
    requires { HasSlots changes.items records.old }
    ensures { MakesChanges changes.items records.old records.new }
{
    for change in changes {
        let Change { key, value } = change;
        let Some(slot) = records.get_mut(key.as_str()) else {
            unreachable!()
        };
        *slot = value;
    }
}

/// Whether there is a place for a key, and no value.
fn is_free(records: &Records, key: &str) -> bool
    ensures { result ≡ true → get_by_text records.now key.now ≡ Some None }
{
    match records.get(key) {
        Some(value) => value.is_none(),
        None => false,
    }
}

fn drop_one(records: &mut Records, key: &str)
    ensures { KeepsRecords records.old records.new }
{
    if !is_free(records, key) {
        return;
    }
    records.remove(key);
}

fn drop_free(records: &mut Records, changes: &[Change])
    ensures { KeepsRecords records.old records.new }
{
    for change in changes {
        drop_one(records, change.key.as_str());
    }
}

/// Makes all changes of records, in order, or none.
pub fn put_records(alloc: Global, records: &mut Records, changes: &[Change]) -> Result<(), Memory>
    ensures ok { OnOk result (MakesChanges changes.now records.old records.new) }
    ensures err { OnErr result (KeepsRecords records.old records.new) }
{
    // All that needs memory comes first, so that nothing fails in the middle.
    let copies = copy_changes(alloc, changes)?;
    make_slots(alloc, records, changes)?;
    fill(records, copies);
    drop_free(records, changes);
    Ok(())
}
