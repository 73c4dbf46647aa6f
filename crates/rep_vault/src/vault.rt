ghost use Rattle.std.specs.Prelude.{◌≡◌, ◌≤◌, ◌<◌, ◌-◌, ◌^◌, OnOk, OnErr, IfSome};
ghost use Rattle.rep_types.specs.declared.state.Call.TheVariants.{Create, Append, Sync, Seal, Read, Make, Rename, Remove, List, Put};
ghost use Rattle.rep_vault.specs.Contents.{Contents, IsSound};
ghost use Rattle.rep_vault.specs.Tallies.{Tally, IsBounded, Counted, PlansOne, total};
ghost use Rattle.rep_vault.specs.Calls.{Creates, Appends, Syncs, Seals, Reads, Makes, Renames, Removes, Lists, Puts, Gets};

use crate::{Change, VaultError};
use rep_types::{Bytes, Call, Memory, Status, Texts};

/// A store: folders of files, and records. A file has bytes, a length that is synced, and is sealed or not.
///
/// Refusals come in this order. Gone: the folder that the call works in or renames doesn't stand, or the call isn't
/// `create` and names a file that doesn't stand. Exists: what is to be made stands, for a rename the target. Sealed: an
/// append or sync names a sealed file. Failed: the store failed, and its count for this kind of call rose. Memory: there
/// was none, and all is as before. A refusal leaves files and records as they were, but a failed append leaves first
/// bytes of its piece.
pub trait Vault {
    /// The folders, their files, and the records.
    ghost contents: { Self → Contents };

    /// How many calls of each kind failed, and how many failures of each kind were planned.
    ghost tally: { Self → Tally };

    /// Makes an empty file, which isn't sealed.
    fn create(&mut self, folder: &str, name: &str) -> Result<(), VaultError>
        ensures does { Creates folder.now name.now (contents self.old) (contents self.new) result }
        ensures counted { Counted Create (tally self.old) (tally self.new) result };

    /// Adds the piece at the end of the file.
    fn append(&mut self, folder: &str, name: &str, piece: &[u8]) -> Result<(), VaultError>
        ensures does { Appends folder.now name.now piece.now (contents self.old) (contents self.new) result }
        ensures counted { Counted Append (tally self.old) (tally self.new) result };

    /// Makes all that was written synced.
    fn sync(&mut self, folder: &str, name: &str) -> Result<(), VaultError>
        ensures does { Syncs folder.now name.now (contents self.old) (contents self.new) result }
        ensures counted { Counted Sync (tally self.old) (tally self.new) result };

    /// Seals a file at a length in bytes, which is told: at least what was synced, at most what was written. A file
    /// that is sealed stays so.
    fn seal(&mut self, folder: &str, name: &str) -> Result<u64, VaultError>
        ensures does { Seals folder.now name.now (contents self.old) (contents self.new) result }
        ensures counted { Counted Seal (tally self.old) (tally self.new) result };

    /// Gives the file's bytes from `from` on, the first `most` of them where there are more.
    fn read(
        &mut self,
        folder: &str,
        name: &str,
        from: u64,
        most: u64,
        out: &mut Bytes,
    ) -> Result<(), VaultError>
        ensures does { Reads folder.now name.now from most (contents self.old) out.new result }
        ensures err { OnErr result (out.new ≡ out.old) }
        ensures kept { contents self.new ≡ contents self.old }
        ensures counted { Counted Read (tally self.old) (tally self.new) result };

    /// Makes an empty folder.
    fn make_folder(&mut self, folder: &str) -> Result<(), VaultError>
        ensures does { Makes folder.now (contents self.old) (contents self.new) result }
        ensures counted { Counted Make (tally self.old) (tally self.new) result };

    /// Gives a folder another name. Its files stay in it.
    fn rename_folder(&mut self, from: &str, to: &str) -> Result<(), VaultError>
        ensures does { Renames from.now to.now (contents self.old) (contents self.new) result }
        ensures counted { Counted Rename (tally self.old) (tally self.new) result };

    /// Removes a file, sealed or not.
    fn remove(&mut self, folder: &str, name: &str) -> Result<(), VaultError>
        ensures does { Removes folder.now name.now (contents self.old) (contents self.new) result }
        ensures counted { Counted Remove (tally self.old) (tally self.new) result };

    /// Gives the names of a folder's files, in the order of their bytes.
    fn list(&mut self, folder: &str, out: &mut Texts) -> Result<(), VaultError>
        ensures does { Lists folder.now (contents self.old) out.new result }
        ensures err { OnErr result (out.new ≡ out.old) }
        ensures kept { contents self.new ≡ contents self.old }
        ensures counted { Counted List (tally self.old) (tally self.new) result };

    /// Makes all changes of records, in order, or none.
    fn put_all(&mut self, changes: &[Change]) -> Result<(), VaultError>
        ensures does { Puts changes.now (contents self.old) (contents self.new) result }
        ensures counted { Counted Put (tally self.old) (tally self.new) result };

    /// Gives the record of a key, and says whether there is one. It never fails.
    fn get(&mut self, key: &str, out: &mut Bytes) -> Result<bool, VaultError>
        ensures does { Gets key.now (contents self.old) out.old out.new result }
        ensures kept { contents self.new ≡ contents self.old }
        ensures counts { tally self.new ≡ tally self.old };

    /// Asks that the `nth` next call of a kind fail, and an append leave the first `bytes` of its piece. A store that
    /// offers no plans ignores it.
    fn plan_failure(&mut self, call: Call, nth: u32, bytes: u32) -> Result<(), Memory>
        requires nth { 1 ≤ nth }
        requires room { IfSome (tally self.old).planned (λ n. n call < 2 ^ 32 - 1) }
        ensures kept { contents self.new ≡ contents self.old }
        ensures ok { OnOk result (PlansOne call (tally self.old) (tally self.new)) }
        ensures err { OnErr result (tally self.new ≡ tally self.old) };

    /// Asks that the next seal of an unsealed file keep so many bytes of what isn't synced. A store that offers no plans
    /// ignores it.
    fn plan_keep(&mut self, bytes: u64) -> Result<(), Memory>
        ensures kept { contents self.new ≡ contents self.old }
        ensures counts { tally self.new ≡ tally self.old };

    /// The faults of all kinds.
    fn faults(&self) -> u64
        ensures { result ≡ total (tally self.now).faults };

    /// Files stand in folders that stand, and what is synced was written.
    ghost sound: { (vault : Self) → IsSound (contents vault) };

    /// There are no more faults of a kind than were planned of it, where that is told.
    ghost bounded: { (vault : Self) → IsBounded (tally vault) };
}

/// How the top call ended, with both stores.
pub struct Outcome<V: Vault> {
    pub status: Status,
    pub a: V,
    pub b: V,
}
