ghost use Rattle.std.specs.Prelude.{◌≡◌, ℕ, List, true, false, None, Some, IfOk, OnOk, OnErr, cond, is_some};
ghost use Rattle.std.specs.Option.{option_map, option_copied};
ghost use Rattle.std.specs.Str.{bytes_eq};
ghost use Rattle.std.specs.BTreeMap.{IsUnchanged};
ghost use Rattle.rep_types.specs.declared.state.Call.TheVariants.{Create, Remove};
ghost use Rattle.rep_vault.specs.Calls.{AreNames};
ghost use Rattle.rep_vault.specs.Plans.{Runs};
ghost use Rattle.rep_vault.specs.Folders.{file_of, file_in, stands_in, CreatesIn, RemovesIn, AddsFolder, MovesFolder};
ghost use Rattle.rep_vault.specs.Stored.{shown};

use crate::VaultError;
use crate::file::MemFile;
use crate::plans::Plans;
use rep_types::{Call, Memory, Text, Texts};
use std::alloc::Global;
use std::collections::BTreeMap;

/// A folder in memory: its files by their names.
#[derive(Drop)]
pub struct Folder {
    pub files: BTreeMap<String, MemFile>,
}

pub type Folders = BTreeMap<String, Folder>;

impl Folder {
    pub fn new(alloc: Global) -> Folder
        ensures { (q : List ℕ) → file_of result q ≡ None }
    {
        Folder {
            files: BTreeMap::new(alloc),
        }
    }

    /// Makes an empty file.
    pub fn create(&mut self, alloc: Global, name: &str, plans: &mut Plans) -> Result<(), VaultError>
        ensures does { CreatesIn name.now self.old self.new result }
        ensures runs { Runs Create plans.old plans.new result }
    {
        if self.files.contains_key(name) {
            return Err(VaultError::Exists);
        }
        if plans.strikes(Call::Create) {
            return Err(VaultError::Failed);
        }
        let Ok(key) = String::from_str(alloc, name) else {
            return Err(VaultError::Memory);
        };
        match self.files.insert(key, MemFile::new(alloc)) {
            Ok(_) => {
                plans.pass(Call::Create);
                Ok(())
            }
            Err(_) => Err(VaultError::Memory),
        }
    }

    pub fn remove(&mut self, name: &str, plans: &mut Plans) -> Result<(), VaultError>
        ensures does { RemovesIn name.now self.old self.new result }
        ensures runs { Runs Remove plans.old plans.new result }
    {
        if !self.files.contains_key(name) {
            return Err(VaultError::Gone);
        }
        if plans.strikes(Call::Remove) {
            return Err(VaultError::Failed);
        }
        self.files.remove(name);
        plans.pass(Call::Remove);
        Ok(())
    }

    /// The names of the files, in the order of their bytes.
    pub fn names(&self, alloc: Global) -> Result<Texts, Memory>
        ensures { IfOk result (λ names. AreNames (file_of self.now) names) }
    {
        let mut names = Texts::new(alloc);
        for name in self.files.keys() {
            names.push(Text::new(alloc, name.as_str())?)?;
        }
        Ok(names)
    }
}

/// The file of a name in a folder.
pub fn find<'a>(folders: &'a Folders, folder: &str, name: &str) -> Option<&'a MemFile>
    ensures { option_map shown (option_copied result) ≡ file_in folders.now folder.now name.now }
{
    match folders.get(folder) {
        Some(dir) => dir.files.get(name),
        None => None,
    }
}

/// Makes an empty folder.
pub fn add_folder(alloc: Global, folders: &mut Folders, folder: &str) -> Result<(), Memory>
    requires { stands_in folders.old folder.now ≡ false }
    ensures ok { OnOk result (AddsFolder folder.now folders.old folders.new) }
    ensures err { OnErr result (IsUnchanged folders.old folders.new) }
{
    let key = String::from_str(alloc, folder)?;
    folders.insert(key, Folder::new(alloc))?;
    Ok(())
}

/// Gives a folder another name.
pub fn move_folder(alloc: Global, folders: &mut Folders, from: &str, to: &str) -> Result<(), Memory>
    requires stands { stands_in folders.old from.now ≡ true }
    requires free { stands_in folders.old to.now ≡ false }
    ensures ok { OnOk result (MovesFolder from.now to.now folders.old folders.new) }
    ensures err { OnErr result (IsUnchanged folders.old folders.new) }
{
    // The place is made first, since nothing may fail once the folder is taken out.
    let key = String::from_str(alloc, to)?;
    folders.insert(key, Folder::new(alloc))?;
    let Some(dir) = folders.remove(from) else {
        unreachable!()
    };
    let Some(place) = folders.get_mut(to) else {
        unreachable!()
    };
    *place = dir;
    Ok(())
}
