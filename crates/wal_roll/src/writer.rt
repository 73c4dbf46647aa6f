ghost use Rattle.std.specs.Prelude.{◌≡◌, ◌+◌, ◌≤◌, length};

use crate::LogError;
use crate::file::{FOLDER, file_name, make_file};
use crate::lengths::{pend, sum_of_first, whole_count};
use rep_types::{Bytes, Call, Entry, ServerId};
use rep_vault::{Tried, TriedSeal, Vault, try_append, try_seal, try_sync};
use std::alloc::Global;
use std::marker::Model;
use wal_entry::{encode_frame, entry_length};

/// The most bytes that the frames of a log have.
const LIMIT: u32 = 65_536;

/// Writes one log. It keeps the lengths of pending frames, and no entries. Its file is `SERVER.NUMBER` in the folder `wal`.
#[derive(Drop)]
pub struct LogWriter {
    alloc: Global,
    server: ServerId,
    number: u32,
    name: String,
    committed: u32,
    synced: u32,
    lengths: Vec<u32>,
    used: u32,
    broken: bool,
}

impl Model for LogWriter {
    ghost use Rattle.wal_roll.specs.Log.{LogValue};
    ghost use Rattle.wal_roll.specs.Keeps.{Keeps};

    ghost Value = { LogValue };

    ghost view = { λ w. record { server = w.server; number = w.number; committed = w.committed; synced = w.synced; lengths = w.lengths.items; broken = w.broken } };

    ghost invariant = { λ w. Keeps w };
}

impl LogWriter {
    ghost use Rattle.wal_roll.specs.Log.{wal, log_name, used_of, IsWriter, Stands, Log};
    ghost use Rattle.wal_roll.specs.Steps.{MayCreate, Created, OnlyFile, Appended, Synced};
    ghost use Rattle.wal_roll.specs.Blamed.{Blamed};
    ghost use Rattle.wal_roll.specs.Kept.{Sealed};
    ghost use Rattle.wal_entry.specs.Framed.{IsFramed};

    /// Makes an empty log. A file of its name that stands empty and unsealed is taken as made.
    pub fn create<V: Vault>(
        alloc: Global,
        vault: &mut V,
        server: ServerId,
        number: u32,
    ) -> Result<LogWriter, LogError>
        requires { MayCreate (V.contents vault.old) server number }
        ensures does { Created server number (V.contents vault.old) (V.contents vault.new) result }
        ensures frame { OnlyFile wal (log_name server number) (V.contents vault.old) (V.contents vault.new) }
        ensures blamed { Blamed (V.tally vault.old) (V.tally vault.new) result }
    {
        let Ok(name) = file_name(alloc, server, number) else {
            return Err(LogError::Memory);
        };
        match make_file(vault, name.as_str()) {
            Tried::Done => Ok(LogWriter {
                alloc,
                server,
                number,
                name,
                committed: 0,
                synced: 0,
                lengths: Vec::new(alloc),
                used: 0,
                broken: false,
            }),
            Tried::NotDone => Err(LogError::StoreFault {
                call: Call::Create,
                count: vault.faults(),
            }),
            Tried::NoMemory => Err(LogError::Memory),
        }
    }

    pub fn server(&self) -> ServerId
        ensures { result ≡ self.now.server }
    {
        self.server
    }

    /// The log's number.
    pub fn number(&self) -> u32
        ensures { result ≡ self.now.number }
    {
        self.number
    }

    /// The length of the frames of the committed entries, in bytes.
    pub fn synced(&self) -> u64
        ensures { result ≡ self.now.synced }
    {
        self.synced as u64
    }

    /// The number of committed entries.
    pub fn committed(&self) -> u32
        ensures { result ≡ self.now.committed }
    {
        self.committed
    }

    /// The number of pending entries.
    pub fn pending(&self) -> u32
        ensures { result ≡ length self.now.lengths }
    {
        self.lengths.len() as u32
    }

    /// The length of the frames of committed and pending entries, in bytes.
    pub fn used(&self) -> u32
        ensures value { result ≡ used_of self.now }
        ensures most { result ≤ 65536 }
    {
        self.used
    }

    /// Whether an earlier append or sync of this log failed.
    pub fn is_broken(&self) -> bool
        ensures { result ≡ self.now.broken }
    {
        self.broken
    }

    /// Adds a pending entry: encodes it once, and makes one call of the store. Where that fails, the entry stays the last
    /// pending one, with first bytes of its frame.
    pub fn append<V: Vault>(&mut self, vault: &mut V, entry: &Entry) -> Result<(), LogError>
        requires stands { Stands (V.contents vault.old) self.old }
        requires framed { IsFramed entry.now }
        ensures does { (log : Log) → IsWriter (V.contents vault.old) self.old log
            → Appended entry.now log self.old (V.contents vault.old) self.new (V.contents vault.new) result }
        ensures frame { OnlyFile wal (log_name self.old.server self.old.number) (V.contents vault.old) (V.contents vault.new) }
        ensures blamed { Blamed (V.tally vault.old) (V.tally vault.new) result }
    {
        if self.broken {
            return Err(LogError::Broken);
        }
        let need = entry_length(entry);
        if self.used + need > LIMIT {
            return Err(LogError::NeedRoll {
                used: self.used,
                need,
                limit: LIMIT,
            });
        }
        let mut piece = Bytes::new(self.alloc);
        let Ok(()) = encode_frame(entry, &mut piece) else {
            return Err(LogError::Memory);
        };
        let Ok(()) = self.lengths.reserve(1) else {
            return Err(LogError::Memory);
        };
        match try_append(vault, FOLDER, self.name.as_str(), piece.as_slice()) {
            Tried::Done => {
                pend(&mut self.lengths, &mut self.used, need);
                Ok(())
            }
            Tried::NotDone => {
                pend(&mut self.lengths, &mut self.used, need);
                self.broken = true;
                Err(LogError::StoreFault {
                    call: Call::Append,
                    count: vault.faults(),
                })
            }
            Tried::NoMemory => Err(LogError::Memory),
        }
    }

    /// Commits the pending entries, and answers how many.
    pub fn sync<V: Vault>(&mut self, vault: &mut V) -> Result<u32, LogError>
        requires { Stands (V.contents vault.old) self.old }
        ensures does { (log : Log) → IsWriter (V.contents vault.old) self.old log
            → Synced log self.old (V.contents vault.old) self.new (V.contents vault.new) result }
        ensures frame { OnlyFile wal (log_name self.old.server self.old.number) (V.contents vault.old) (V.contents vault.new) }
        ensures blamed { Blamed (V.tally vault.old) (V.tally vault.new) result }
    {
        if self.broken {
            return Err(LogError::Broken);
        }
        let count = self.lengths.len() as u32;
        match try_sync(vault, FOLDER, self.name.as_str()) {
            Tried::Done => {
                self.committed += count;
                self.synced = self.used;
                self.lengths.clear();
                Ok(count)
            }
            Tried::NotDone => {
                self.broken = true;
                Err(LogError::StoreFault {
                    call: Call::Sync,
                    count: vault.faults(),
                })
            }
            Tried::NoMemory => Err(LogError::Memory),
        }
    }

    /// Seals the file, and answers how many pending entries are kept: those whose frames stand whole within the length that
    /// the store kept. They are committed, and the other pending entries are gone. The lengths alone tell that; nothing is
    /// read.
    pub fn seal<V: Vault>(&mut self, vault: &mut V) -> Result<u32, LogError>
        requires { Stands (V.contents vault.old) self.old }
        ensures does { (log : Log) → IsWriter (V.contents vault.old) self.old log
            → Sealed log self.old (V.contents vault.old) self.new (V.contents vault.new) result }
        ensures frame { OnlyFile wal (log_name self.old.server self.old.number) (V.contents vault.old) (V.contents vault.new) }
        ensures blamed { Blamed (V.tally vault.old) (V.tally vault.new) result }
    {
        match try_seal(vault, FOLDER, self.name.as_str()) {
            TriedSeal::At(len) => {
                let count = whole_count(&self.lengths, len - self.synced as u64);
                let size = sum_of_first(&self.lengths, count);
                self.committed += count;
                self.synced += size;
                self.used = self.synced;
                self.lengths.clear();
                Ok(count)
            }
            TriedSeal::NotDone => Err(LogError::StoreFault {
                call: Call::Seal,
                count: vault.faults(),
            }),
            TriedSeal::NoMemory => Err(LogError::Memory),
        }
    }
}
