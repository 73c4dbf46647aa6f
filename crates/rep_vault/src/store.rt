use rep_types::{Bytes, Text};
use thiserror::Error;

/// Why a call was refused; the first that holds, in this order: Gone, Exists, Sealed, Failed, Memory.
#[derive(Clone, Copy, Debug, PartialEq, Eq, Error)]
pub enum VaultError {
    #[error("the store failed")]
    Failed,
    #[error("there is no such folder or file")]
    Gone,
    #[error("the file is sealed")]
    Sealed,
    #[error("it stands already")]
    Exists,
    #[error("out of memory")]
    Memory,
}

/// Sets the record of a key, or deletes it where there is no value.
#[derive(Drop)]
pub struct Change {
    pub key: Text,
    pub value: Option<Bytes>,
}
