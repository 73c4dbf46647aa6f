ghost use Rattle.std.specs.Prelude.{◌≡◌, ◌≢◌, None, true, false};
ghost use Rattle.rep_types.specs.declared.state.Call.TheVariants.{Create, Append, Sync, Seal, Read, Make, Rename, Remove, List, Put};
ghost use Rattle.rep_vault.specs.Contents.{File, empty_file, with_file, without_file, with_folder, renamed, with_records};
ghost use Rattle.rep_vault.specs.Calls.{IsFree, IsOpen, MayRename};
ghost use Rattle.rep_vault.specs.Tries.{Tries, TriesSeal, Leaves, AppendsOpen, SyncsOpen, SealsThere, ReadsThere, GivesNames};

use crate::{Change, Vault, VaultError};
use rep_types::{Bytes, Texts};

/// How a call went that nothing but a fault or want of memory could stop.
#[derive(Clone, Copy)]
pub enum Tried {
    Done,
    NotDone,
    NoMemory,
}

/// How a seal went that nothing but a fault or want of memory could stop. At a length in bytes.
#[derive(Clone, Copy)]
pub enum TriedSeal {
    At(u64),
    NotDone,
    NoMemory,
}

/// Makes a file that doesn't stand, in a folder that does.
pub fn try_create<V: Vault>(vault: &mut V, folder: &str, name: &str) -> Tried
    requires { IsFree (V.contents vault.old) folder.now name.now }
    ensures does { Leaves (with_file folder.now name.now empty_file (V.contents vault.old))
        (V.contents vault.old) (V.contents vault.new) result }
    ensures tries { Tries Create (V.tally vault.old) (V.tally vault.new) result }
{
    match vault.create(folder, name) {
        Ok(()) => Tried::Done,
        Err(VaultError::Failed) => Tried::NotDone,
        Err(VaultError::Memory) => Tried::NoMemory,
        Err(_) => unreachable!(),
    }
}

/// Appends to a file that is open.
pub fn try_append<V: Vault>(vault: &mut V, folder: &str, name: &str, piece: &[u8]) -> Tried
    requires { (x : File) × IsOpen (V.contents vault.old) folder.now name.now x }
    ensures does { AppendsOpen folder.now name.now piece.now (V.contents vault.old) (V.contents vault.new) result }
    ensures tries { Tries Append (V.tally vault.old) (V.tally vault.new) result }
{
    match vault.append(folder, name, piece) {
        Ok(()) => Tried::Done,
        Err(VaultError::Failed) => Tried::NotDone,
        Err(VaultError::Memory) => Tried::NoMemory,
        Err(_) => unreachable!(),
    }
}

/// Syncs a file that is open.
pub fn try_sync<V: Vault>(vault: &mut V, folder: &str, name: &str) -> Tried
    requires { (x : File) × IsOpen (V.contents vault.old) folder.now name.now x }
    ensures does { SyncsOpen folder.now name.now (V.contents vault.old) (V.contents vault.new) result }
    ensures tries { Tries Sync (V.tally vault.old) (V.tally vault.new) result }
{
    match vault.sync(folder, name) {
        Ok(()) => Tried::Done,
        Err(VaultError::Failed) => Tried::NotDone,
        Err(VaultError::Memory) => Tried::NoMemory,
        Err(_) => unreachable!(),
    }
}

/// Reads a file that stands.
pub fn try_read<V: Vault>(
    vault: &mut V,
    folder: &str,
    name: &str,
    from: u64,
    most: u64,
    out: &mut Bytes,
) -> Tried
    requires { (V.contents vault.old).files folder.now name.now ≢ None }
    ensures does { ReadsThere folder.now name.now from most (V.contents vault.old) out.old out.new result }
    ensures tries { Tries Read (V.tally vault.old) (V.tally vault.new) result }
    ensures kept { V.contents vault.new ≡ V.contents vault.old }
{
    match vault.read(folder, name, from, most, out) {
        Ok(()) => Tried::Done,
        Err(VaultError::Failed) => Tried::NotDone,
        Err(VaultError::Memory) => Tried::NoMemory,
        Err(_) => unreachable!(),
    }
}

/// Makes a folder that doesn't stand.
pub fn try_make<V: Vault>(vault: &mut V, folder: &str) -> Tried
    requires { (V.contents vault.old).stands folder.now ≡ false }
    ensures does { Leaves (with_folder folder.now (V.contents vault.old))
        (V.contents vault.old) (V.contents vault.new) result }
    ensures tries { Tries Make (V.tally vault.old) (V.tally vault.new) result }
{
    match vault.make_folder(folder) {
        Ok(()) => Tried::Done,
        Err(VaultError::Failed) => Tried::NotDone,
        Err(VaultError::Memory) => Tried::NoMemory,
        Err(_) => unreachable!(),
    }
}

/// Renames a folder that stands, where the target doesn't.
pub fn try_rename<V: Vault>(vault: &mut V, from: &str, to: &str) -> Tried
    requires { MayRename (V.contents vault.old) from.now to.now }
    ensures does { Leaves (renamed from.now to.now (V.contents vault.old))
        (V.contents vault.old) (V.contents vault.new) result }
    ensures tries { Tries Rename (V.tally vault.old) (V.tally vault.new) result }
{
    match vault.rename_folder(from, to) {
        Ok(()) => Tried::Done,
        Err(VaultError::Failed) => Tried::NotDone,
        Err(VaultError::Memory) => Tried::NoMemory,
        Err(_) => unreachable!(),
    }
}

/// Removes a file that stands.
pub fn try_remove<V: Vault>(vault: &mut V, folder: &str, name: &str) -> Tried
    requires { (V.contents vault.old).files folder.now name.now ≢ None }
    ensures does { Leaves (without_file folder.now name.now (V.contents vault.old))
        (V.contents vault.old) (V.contents vault.new) result }
    ensures tries { Tries Remove (V.tally vault.old) (V.tally vault.new) result }
{
    match vault.remove(folder, name) {
        Ok(()) => Tried::Done,
        Err(VaultError::Failed) => Tried::NotDone,
        Err(VaultError::Memory) => Tried::NoMemory,
        Err(_) => unreachable!(),
    }
}

/// Lists a folder that stands.
pub fn try_list<V: Vault>(vault: &mut V, folder: &str, out: &mut Texts) -> Tried
    requires { (V.contents vault.old).stands folder.now ≡ true }
    ensures does { GivesNames ((V.contents vault.old).files folder.now) out.old out.new result }
    ensures tries { Tries List (V.tally vault.old) (V.tally vault.new) result }
    ensures kept { V.contents vault.new ≡ V.contents vault.old }
{
    match vault.list(folder, out) {
        Ok(()) => Tried::Done,
        Err(VaultError::Failed) => Tried::NotDone,
        Err(VaultError::Memory) => Tried::NoMemory,
        Err(_) => unreachable!(),
    }
}

/// Makes all changes of records, in order, or none.
pub fn try_put<V: Vault>(vault: &mut V, changes: &[Change]) -> Tried
    ensures does { Leaves (with_records changes.now (V.contents vault.old))
        (V.contents vault.old) (V.contents vault.new) result }
    ensures tries { Tries Put (V.tally vault.old) (V.tally vault.new) result }
{
    match vault.put_all(changes) {
        Ok(()) => Tried::Done,
        Err(VaultError::Failed) => Tried::NotDone,
        Err(VaultError::Memory) => Tried::NoMemory,
        Err(_) => unreachable!(),
    }
}

/// Seals a file that stands.
pub fn try_seal<V: Vault>(vault: &mut V, folder: &str, name: &str) -> TriedSeal
    requires { (V.contents vault.old).files folder.now name.now ≢ None }
    ensures does { SealsThere folder.now name.now (V.contents vault.old) (V.contents vault.new) result }
    ensures tries { TriesSeal (V.tally vault.old) (V.tally vault.new) result }
{
    match vault.seal(folder, name) {
        Ok(len) => TriedSeal::At(len),
        Err(VaultError::Failed) => TriedSeal::NotDone,
        Err(VaultError::Memory) => TriedSeal::NoMemory,
        Err(_) => unreachable!(),
    }
}
