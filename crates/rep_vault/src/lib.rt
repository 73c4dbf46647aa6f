//! A store of files and records, whose calls may fail, and such a store in memory. The rules are this project's own.
#![tactic(auto)]

mod file;
mod folder;
mod kind;
mod memory;
mod plans;
mod records;
mod store;
mod tried;
mod vault;

pub use memory::MemVault;
pub use store::{Change, VaultError};
pub use tried::{
    Tried, TriedSeal, try_append, try_create, try_list, try_make, try_put, try_read, try_remove,
    try_rename, try_seal, try_sync,
};
pub use vault::{Outcome, Vault};
