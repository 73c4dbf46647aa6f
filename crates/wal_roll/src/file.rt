ghost use Rattle.std.specs.Prelude.{◌≡◌, IfOk, IfSome, string_bytes, true};
ghost use Rattle.rep_types.specs.declared.state.Call.TheVariants.{Create};
ghost use Rattle.rep_vault.specs.Contents.{empty_file, with_file};
ghost use Rattle.rep_vault.specs.Tries.{Leaves, Tries};
ghost use Rattle.wal_roll.specs.Log.{wal, log_name};

use rep_types::ServerId;
use rep_vault::{Tried, Vault, VaultError};
use std::alloc::{AllocError, Global};

/// The folder of logs.
pub const FOLDER: &str = "wal";

/// The name of a log's file: its server's number and its own, in decimal, with a full stop between them.
#[tactic(auto, unfolding(crate::specs::Log::log_name))]
pub fn file_name(alloc: Global, server: ServerId, number: u32) -> Result<String, AllocError>
    ensures { IfOk result (λ name. string_bytes name ≡ log_name server number) }
{
    let server = server.number();
    format!(in alloc; "{server}.{number}")
}

// Makes the file, or takes it as made where it stands empty.
pub fn make_file<V: Vault>(vault: &mut V, name: &str) -> Tried
    requires stands { (V.contents vault.old).stands wal ≡ true }
    requires free { IfSome ((V.contents vault.old).files wal name.now) (λ x. x ≡ empty_file) }
    ensures does { Leaves (with_file wal name.now empty_file (V.contents vault.old))
        (V.contents vault.old) (V.contents vault.new) result }
    ensures tries { Tries Create (V.tally vault.old) (V.tally vault.new) result }
{
    match vault.create(FOLDER, name) {
        Ok(()) => Tried::Done,
        Err(VaultError::Exists) => Tried::Done,
        Err(VaultError::Failed) => Tried::NotDone,
        Err(VaultError::Memory) => Tried::NoMemory,
        Err(_) => unreachable!(),
    }
}
