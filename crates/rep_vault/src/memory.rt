ghost use Rattle.std.specs.Prelude.{◌≡◌, ◌≤◌, ◌<◌, ◌-◌, ◌^◌, ◌==◌, ℕ, None, Some, false, IfOk, OnOk, OnErr, IfSome, if◌then◌else◌};
ghost use Rattle.std.specs.Option.{option_copied};
ghost use Rattle.rep_types.specs.declared.state.Call.{Call};
ghost use Rattle.rep_types.specs.declared.state.Call.TheVariants.{Create, Append, Sync, Seal, Read, Make, Rename, Remove, List, Put};
ghost use Rattle.rep_vault.specs.New.{IsNew};
ghost use Rattle.rep_vault.specs.Tallies.{Counted, PlansOne, same, total};
ghost use Rattle.rep_vault.specs.Calls.{Creates, Appends, Syncs, Seals, Reads, Makes, Renames, Removes, Lists, Puts, Gets};
ghost use Rattle.rep_vault.specs.Memory.{contents_of, tally_of, ahead_of, keep_of, Follows, AppendsFirst, SealsAt, PlansAhead};
ghost use Rattle.rep_vault.specs.Folders.{record_in};
ghost use Rattle.rep_vault.specs.Laws.{sound, bounded};

use crate::folder::{Folder, Folders, add_folder, find, move_folder};
use crate::plans::Plans;
use crate::records::{Records, put_records, record};
use crate::{Change, Vault, VaultError};
use rep_types::{Bytes, Call, Duplicate, Memory, Texts};
use std::alloc::Global;
use std::collections::BTreeMap;

/// The store in memory. Its calls fail as they are planned to, and no others. A seal keeps of an unsynced tail what is
/// planned, and else nothing.
#[derive(Drop)]
pub struct MemVault {
    alloc: Global,
    folders: Folders,
    records: Records,
    plans: Plans,
    /// How much of an unsynced tail the next seal of an unsealed file keeps.
    keep: Option<u64>,
}

impl MemVault {
    /// The folders `wal` and `run` stand, and nothing else. No fault is told, and nothing is planned.
    pub fn new(alloc: Global) -> Result<MemVault, Memory>
        ensures fresh { IfOk result (λ vault. IsNew (contents_of vault) (tally_of vault)) }
        ensures planned { IfOk result (λ vault. (tally_of vault).planned ≡ Some (λ _. 0)) }
        ensures ahead { IfOk result (λ vault. (k : Call) (n : ℕ) → ahead_of vault k n ≡ None) }
        ensures keep { IfOk result (λ vault. keep_of vault ≡ None) }
    {
        let mut folders = BTreeMap::new(alloc);
        add_folder(alloc, &mut folders, "wal")?;
        add_folder(alloc, &mut folders, "run")?;
        Ok(MemVault {
            alloc,
            folders,
            records: BTreeMap::new(alloc),
            plans: Plans::new(alloc),
            keep: None,
        })
    }
}

impl Vault for MemVault {
    ghost contents = { contents_of };

    ghost tally = { tally_of };

    ghost sound = { sound };

    ghost bounded = { bounded };

    fn create(&mut self, folder: &str, name: &str) -> Result<(), VaultError>
        ensures does { Creates folder.now name.now (contents_of self.old) (contents_of self.new) result }
        ensures counted { Counted Create (tally_of self.old) (tally_of self.new) result }
        ensures follows { Follows Create self.old self.new result }
        ensures keeps { keep_of self.new ≡ keep_of self.old }
    {
        match self.folders.get_mut(folder) {
            Some(dir) => dir.create(self.alloc, name, &mut self.plans),
            None => Err(VaultError::Gone),
        }
    }

    fn append(&mut self, folder: &str, name: &str, piece: &[u8]) -> Result<(), VaultError>
        ensures does { Appends folder.now name.now piece.now (contents_of self.old) (contents_of self.new) result }
        ensures counted { Counted Append (tally_of self.old) (tally_of self.new) result }
        ensures follows { Follows Append self.old self.new result }
        ensures leaves { AppendsFirst folder.now name.now piece.now (ahead_of self.old Append 1)
            (contents_of self.old) (contents_of self.new) result }
        ensures keeps { keep_of self.new ≡ keep_of self.old }
    {
        match self.folders.get_mut(folder) {
            Some(dir) => match dir.files.get_mut(name) {
                Some(file) => file.append(piece, &mut self.plans),
                None => Err(VaultError::Gone),
            },
            None => Err(VaultError::Gone),
        }
    }

    fn sync(&mut self, folder: &str, name: &str) -> Result<(), VaultError>
        ensures does { Syncs folder.now name.now (contents_of self.old) (contents_of self.new) result }
        ensures counted { Counted Sync (tally_of self.old) (tally_of self.new) result }
        ensures follows { Follows Sync self.old self.new result }
        ensures keeps { keep_of self.new ≡ keep_of self.old }
    {
        match self.folders.get_mut(folder) {
            Some(dir) => match dir.files.get_mut(name) {
                Some(file) => file.sync(&mut self.plans),
                None => Err(VaultError::Gone),
            },
            None => Err(VaultError::Gone),
        }
    }

    fn seal(&mut self, folder: &str, name: &str) -> Result<u64, VaultError>
        ensures does { Seals folder.now name.now (contents_of self.old) (contents_of self.new) result }
        ensures counted { Counted Seal (tally_of self.old) (tally_of self.new) result }
        ensures follows { Follows Seal self.old self.new result }
        ensures keeps { SealsAt folder.now name.now (contents_of self.old) (keep_of self.old) (keep_of self.new) result }
    {
        match self.folders.get_mut(folder) {
            Some(dir) => match dir.files.get_mut(name) {
                Some(file) => file.seal(&mut self.plans, &mut self.keep),
                None => Err(VaultError::Gone),
            },
            None => Err(VaultError::Gone),
        }
    }

    fn read(
        &mut self,
        folder: &str,
        name: &str,
        from: u64,
        most: u64,
        out: &mut Bytes,
    ) -> Result<(), VaultError>
        ensures does { Reads folder.now name.now from most (contents_of self.old) out.new result }
        ensures err { OnErr result (out.new ≡ out.old) }
        ensures kept { contents_of self.new ≡ contents_of self.old }
        ensures counted { Counted Read (tally_of self.old) (tally_of self.new) result }
        ensures follows { Follows Read self.old self.new result }
        ensures keeps { keep_of self.new ≡ keep_of self.old }
    {
        match find(&self.folders, folder, name) {
            Some(file) => {
                if self.plans.strikes(Call::Read) {
                    return Err(VaultError::Failed);
                }
                let Ok(bytes) = Bytes::from_slice(self.alloc, file.part(from, most)) else {
                    return Err(VaultError::Memory);
                };
                *out = bytes;
                self.plans.pass(Call::Read);
                Ok(())
            }
            None => Err(VaultError::Gone),
        }
    }

    fn make_folder(&mut self, folder: &str) -> Result<(), VaultError>
        ensures does { Makes folder.now (contents_of self.old) (contents_of self.new) result }
        ensures counted { Counted Make (tally_of self.old) (tally_of self.new) result }
        ensures follows { Follows Make self.old self.new result }
        ensures keeps { keep_of self.new ≡ keep_of self.old }
    {
        if self.folders.contains_key(folder) {
            return Err(VaultError::Exists);
        }
        if self.plans.strikes(Call::Make) {
            return Err(VaultError::Failed);
        }
        match add_folder(self.alloc, &mut self.folders, folder) {
            Ok(()) => {
                self.plans.pass(Call::Make);
                Ok(())
            }
            Err(_) => Err(VaultError::Memory),
        }
    }

    fn rename_folder(&mut self, from: &str, to: &str) -> Result<(), VaultError>
        ensures does { Renames from.now to.now (contents_of self.old) (contents_of self.new) result }
        ensures counted { Counted Rename (tally_of self.old) (tally_of self.new) result }
        ensures follows { Follows Rename self.old self.new result }
        ensures keeps { keep_of self.new ≡ keep_of self.old }
    {
        if !self.folders.contains_key(from) {
            return Err(VaultError::Gone);
        }
        if self.folders.contains_key(to) {
            return Err(VaultError::Exists);
        }
        if self.plans.strikes(Call::Rename) {
            return Err(VaultError::Failed);
        }
        match move_folder(self.alloc, &mut self.folders, from, to) {
            Ok(()) => {
                self.plans.pass(Call::Rename);
                Ok(())
            }
            Err(_) => Err(VaultError::Memory),
        }
    }

    fn remove(&mut self, folder: &str, name: &str) -> Result<(), VaultError>
        ensures does { Removes folder.now name.now (contents_of self.old) (contents_of self.new) result }
        ensures counted { Counted Remove (tally_of self.old) (tally_of self.new) result }
        ensures follows { Follows Remove self.old self.new result }
        ensures keeps { keep_of self.new ≡ keep_of self.old }
    {
        match self.folders.get_mut(folder) {
            Some(dir) => dir.remove(name, &mut self.plans),
            None => Err(VaultError::Gone),
        }
    }

    fn list(&mut self, folder: &str, out: &mut Texts) -> Result<(), VaultError>
        ensures does { Lists folder.now (contents_of self.old) out.new result }
        ensures err { OnErr result (out.new ≡ out.old) }
        ensures kept { contents_of self.new ≡ contents_of self.old }
        ensures counted { Counted List (tally_of self.old) (tally_of self.new) result }
        ensures follows { Follows List self.old self.new result }
        ensures keeps { keep_of self.new ≡ keep_of self.old }
    {
        match self.folders.get(folder) {
            Some(dir) => {
                if self.plans.strikes(Call::List) {
                    return Err(VaultError::Failed);
                }
                let Ok(names) = dir.names(self.alloc) else {
                    return Err(VaultError::Memory);
                };
                *out = names;
                self.plans.pass(Call::List);
                Ok(())
            }
            None => Err(VaultError::Gone),
        }
    }

    fn put_all(&mut self, changes: &[Change]) -> Result<(), VaultError>
        ensures does { Puts changes.now (contents_of self.old) (contents_of self.new) result }
        ensures counted { Counted Put (tally_of self.old) (tally_of self.new) result }
        ensures follows { Follows Put self.old self.new result }
        ensures keeps { keep_of self.new ≡ keep_of self.old }
    {
        if self.plans.strikes(Call::Put) {
            return Err(VaultError::Failed);
        }
        match put_records(self.alloc, &mut self.records, changes) {
            Ok(()) => {
                self.plans.pass(Call::Put);
                Ok(())
            }
            Err(_) => Err(VaultError::Memory),
        }
    }

    fn get(&mut self, key: &str, out: &mut Bytes) -> Result<bool, VaultError>
        ensures does { Gets key.now (contents_of self.old) out.old out.new result }
        ensures kept { contents_of self.new ≡ contents_of self.old }
        ensures counts { tally_of self.new ≡ tally_of self.old }
        ensures ahead { ahead_of self.new ≡ ahead_of self.old }
        ensures keeps { keep_of self.new ≡ keep_of self.old }
    {
        match record(&self.records, key) {
            Some(value) => match value.copy(self.alloc) {
                Ok(copy) => {
                    *out = copy;
                    Ok(true)
                }
                Err(_) => Err(VaultError::Memory),
            },
            None => Ok(false),
        }
    }

    fn plan_failure(&mut self, call: Call, nth: u32, bytes: u32) -> Result<(), Memory>
        requires nth { 1 ≤ nth }
        requires room { IfSome (tally_of self.old).planned (λ n. n call < 2 ^ 32 - 1) }
        ensures kept { contents_of self.new ≡ contents_of self.old }
        ensures ok { OnOk result (PlansOne call (tally_of self.old) (tally_of self.new)) }
        ensures err { OnErr result (tally_of self.new ≡ tally_of self.old) }
        ensures plans { OnOk result (PlansAhead call nth bytes (ahead_of self.old) (ahead_of self.new)) }
        ensures stays { OnErr result (ahead_of self.new ≡ ahead_of self.old) }
        ensures keeps { keep_of self.new ≡ keep_of self.old }
    {
        self.plans.plan(call, nth, bytes)
    }

    fn plan_keep(&mut self, bytes: u64) -> Result<(), Memory>
        ensures kept { contents_of self.new ≡ contents_of self.old }
        ensures counts { tally_of self.new ≡ tally_of self.old }
        ensures ok { result ≡ Ok tt }
        ensures ahead { ahead_of self.new ≡ ahead_of self.old }
        ensures keep { keep_of self.new ≡ Some bytes }
    {
        self.keep = Some(bytes);
        Ok(())
    }

    #[tactic(auto, unfolding(crate::specs::Memory::tally_in))]
    fn faults(&self) -> u64 {
        self.plans.faults()
    }
}
