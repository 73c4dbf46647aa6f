ghost use Rattle.std.specs.Prelude.{◌≡◌, ◌≤◌, true, length, take};

use crate::VaultError;
use crate::plans::Plans;
use rep_types::{Bytes, Call};
use std::alloc::Global;

/// A file in memory.
#[derive(Drop)]
pub struct MemFile {
    bytes: Bytes,
    synced: usize,
    sealed: bool,
    ghost within: { synced ≤ length bytes },
    ghost whole: { sealed ≡ true → synced ≡ length bytes },
}

impl MemFile {
    ghost use Rattle.std.specs.Prelude.{◌+◌, min, false};
    ghost use Rattle.rep_types.specs.declared.state.Call.TheVariants.{Append, Sync, Seal};
    ghost use Rattle.rep_vault.specs.Contents.{empty_file};
    ghost use Rattle.rep_vault.specs.Calls.{part, cut_at};
    ghost use Rattle.rep_vault.specs.Kinds.{ahead};
    ghost use Rattle.rep_vault.specs.Plans.{Runs, of_kind};
    ghost use Rattle.rep_vault.specs.Stored.{shown, AppendsTo, SyncsIt, SealsIt};

    pub fn new(alloc: Global) -> MemFile
        ensures { shown result ≡ empty_file }
    {
        MemFile {
            bytes: Bytes::new(alloc),
            synced: 0,
            sealed: false,
        }
    }

    /// The bytes from a place on, at most so many.
    pub fn part(&self, from: u64, most: u64) -> &[u8]
        ensures { result.now ≡ part from most (shown self.now) }
    {
        let bytes = self.bytes.as_slice();
        let start = from.min(bytes.len() as u64) as usize;
        let rest = &bytes[start..];
        let n = most.min(rest.len() as u64) as usize;
        &rest[..n]
    }

    /// Adds the piece. If the call is to fail, it adds only first bytes.
    pub fn append(&mut self, piece: &[u8], plans: &mut Plans) -> Result<(), VaultError>
        ensures does { AppendsTo piece.now (ahead (of_kind Append plans.old) 1) (shown self.old) (shown self.new) result }
        ensures runs { Runs Append plans.old plans.new result }
    {
        if self.sealed {
            return Err(VaultError::Sealed);
        }
        let due = plans.due(Call::Append);
        let left = match due {
            Some(bytes) => first_bytes(piece, bytes),
            None => piece,
        };
        if self.bytes.extend_from_slice(left).is_err() {
            return Err(VaultError::Memory);
        }
        plans.pass(Call::Append);
        match due {
            Some(_) => Err(VaultError::Failed),
            None => Ok(()),
        }
    }

    pub fn sync(&mut self, plans: &mut Plans) -> Result<(), VaultError>
        ensures does { SyncsIt (shown self.old) (shown self.new) result }
        ensures runs { Runs Sync plans.old plans.new result }
    {
        if self.sealed {
            return Err(VaultError::Sealed);
        }
        if plans.strikes(Call::Sync) {
            return Err(VaultError::Failed);
        }
        self.synced = self.bytes.len();
        plans.pass(Call::Sync);
        Ok(())
    }

    /// Seals an unsealed file, with so many bytes of its unsynced tail.
    fn cut(&mut self, tail: u64)
        requires { self.old.sealed ≡ false }
        ensures { shown self.new ≡ cut_at (min (length self.old.bytes) (self.old.synced + tail)) (shown self.old) }
    {
        let unsynced = self.bytes.len() - self.synced;
        let kept = tail.min(unsynced as u64) as usize;
        self.synced += kept;
        self.bytes.truncate(self.synced);
        self.sealed = true;
    }

    /// Seals the file, and uses the plan of what to keep, if it wasn't sealed. It gives the file's length.
    pub fn seal(&mut self, plans: &mut Plans, keep: &mut Option<u64>) -> Result<u64, VaultError>
        ensures does { SealsIt keep.old (shown self.old) (shown self.new) keep.new result }
        ensures runs { Runs Seal plans.old plans.new result }
    {
        if plans.strikes(Call::Seal) {
            return Err(VaultError::Failed);
        }
        if !self.sealed {
            self.cut(keep.take().unwrap_or(0));
        }
        plans.pass(Call::Seal);
        Ok(self.bytes.len() as u64)
    }
}

/// At most so many of the first bytes.
fn first_bytes(piece: &[u8], most: u32) -> &[u8]
    ensures { result.now ≡ take most piece.now }
{
    &piece[..piece.len().min(most as usize)]
}
