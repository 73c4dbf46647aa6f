ghost use Rattle.std.specs.Prelude.{◌≡◌, [], map};

use crate::lists::{pend, reserve, take_all, wait};
use rep_types::{Entries, Entry, Memory, ServerId, Tickets};
use rep_vault::Vault;
use std::alloc::Global;
use std::marker::Model;
use wal_roll::{LogError, LogWriter};

/// What a sync committed: all entries that were pending, in order, and the tickets of puts among them.
#[derive(Drop)]
pub struct Committed {
    pub entries: Entries,
    pub tickets: Tickets,
}

/// What a seal kept of the pending entries: the first ones, in order, and how many others are gone.
#[derive(Drop)]
pub struct Kept {
    pub entries: Entries,
    pub dropped: u32,
}

/// A server's current log, its pending entries and the tickets of puts among them, in order.
#[derive(Drop)]
pub struct Host {
    alloc: Global,
    server: ServerId,
    log: LogWriter,
    pending: Vec<Entry>,
    tickets: Vec<u32>,
}

impl Model for Host {
    ghost use Rattle.region_server.specs.Host.{HostValue};
    ghost use Rattle.region_server.specs.Keeps.{Keeps};

    ghost Value = { HostValue };

    ghost view = { λ h. record { log = h.log; pending = h.pending.items; tickets = h.tickets.items } };

    ghost invariant = { λ h. Keeps h };
}

impl Host {
    ghost use Rattle.wal_roll.specs.Log.{wal, log_name, frame_size, Log};
    ghost use Rattle.wal_roll.specs.Steps.{OnlyFile};
    ghost use Rattle.wal_roll.specs.Blamed.{Blamed};
    ghost use Rattle.wal_entry.specs.Framed.{IsFramed};
    ghost use Rattle.region_server.specs.Host.{IsHost, Stands};
    ghost use Rattle.region_server.specs.Calls.{Accepts, Commits, Seals};

    /// A host of the server. The log is the server's, and nothing is pending in it. Nothing is allocated yet.
    pub fn new(alloc: Global, server: ServerId, log: LogWriter) -> Result<Host, Memory>
        requires own { log.server ≡ server }
        requires fresh { log.lengths ≡ [] }
        ensures { result ≡ Ok (record { log = log; pending = []; tickets = [] }) }
    {
        Ok(Host {
            alloc,
            server,
            log,
            pending: Vec::new(alloc),
            tickets: Vec::new(alloc),
        })
    }

    pub fn server(&self) -> ServerId
        ensures { result ≡ self.now.log.server }
    {
        self.server
    }

    pub fn log(&self) -> &LogWriter
        ensures log { result.now ≡ self.now.log }
        ensures pending { result.now.lengths ≡ map frame_size self.now.pending }
    {
        &self.log
    }

    /// Puts the server's next log in the place of one that has nothing pending, as a sealed one. The tickets stay.
    pub fn set_log(&mut self, log: LogWriter)
        requires own { log.server ≡ self.old.log.server }
        requires none { self.old.pending ≡ [] }
        requires fresh { log.lengths ≡ [] }
        ensures { self.new ≡ record self.old { log = log } }
    {
        self.log = log;
    }

    /// Appends the entry to the log, and puts it last on the pending list, and its ticket on the tickets. After an append
    /// that failed in the store the entry is the last pending one too, without its ticket. Want of memory for the lists is
    /// told before any other refusal.
    pub fn accept<V: Vault>(
        &mut self,
        vault: &mut V,
        entry: Entry,
        ticket: Option<u32>,
    ) -> Result<(), LogError>
        requires stands { Stands (V.contents vault.old) self.old }
        requires framed { IsFramed entry }
        ensures does { (log : Log) → IsHost (V.contents vault.old) self.old log
            → Accepts entry ticket log self.old (V.contents vault.old) self.new (V.contents vault.new) result }
        ensures frame { OnlyFile wal (log_name self.old.log.server self.old.log.number) (V.contents vault.old) (V.contents vault.new) }
        ensures blamed { Blamed (V.tally vault.old) (V.tally vault.new) result }
    {
        let Ok(()) = reserve(&mut self.pending, &mut self.tickets) else {
            return Err(LogError::Memory);
        };
        match self.log.append(vault, &entry) {
            Ok(()) => {
                pend(&mut self.pending, entry);
                wait(&mut self.tickets, ticket);
                Ok(())
            }
            Err(LogError::StoreFault { call, count }) => {
                pend(&mut self.pending, entry);
                Err(LogError::StoreFault { call, count })
            }
            Err(LogError::Broken) => Err(LogError::Broken),
            Err(LogError::NeedRoll { used, need, limit }) => {
                Err(LogError::NeedRoll { used, need, limit })
            }
            Err(LogError::Memory) => Err(LogError::Memory),
        }
    }

    /// Commits the pending entries, and hands them out with their tickets. Where that fails, both stay.
    pub fn commit<V: Vault>(&mut self, vault: &mut V) -> Result<Committed, LogError>
        requires { Stands (V.contents vault.old) self.old }
        ensures does { (log : Log) → IsHost (V.contents vault.old) self.old log
            → Commits log self.old (V.contents vault.old) self.new (V.contents vault.new) result }
        ensures frame { OnlyFile wal (log_name self.old.log.server self.old.log.number) (V.contents vault.old) (V.contents vault.new) }
        ensures blamed { Blamed (V.tally vault.old) (V.tally vault.new) result }
    {
        self.log.sync(vault)?;
        Ok(Committed {
            entries: take_all(self.alloc, &mut self.pending),
            tickets: take_all(self.alloc, &mut self.tickets),
        })
    }

    /// Hands out the tickets, whose puts are given up.
    pub fn give_up(&mut self) -> Tickets
        ensures tickets { result ≡ self.old.tickets }
        ensures left { self.new ≡ record self.old { tickets = [] } }
    {
        take_all(self.alloc, &mut self.tickets)
    }

    /// Seals the log. The pending entries whose frames the store kept whole are committed and handed out, and the others
    /// are gone. The tickets stay until they are given up.
    pub fn seal<V: Vault>(&mut self, vault: &mut V) -> Result<Kept, LogError>
        requires { Stands (V.contents vault.old) self.old }
        ensures does { (log : Log) → IsHost (V.contents vault.old) self.old log
            → Seals log self.old (V.contents vault.old) self.new (V.contents vault.new) result }
        ensures frame { OnlyFile wal (log_name self.old.log.server self.old.log.number) (V.contents vault.old) (V.contents vault.new) }
        ensures blamed { Blamed (V.tally vault.old) (V.tally vault.new) result }
    {
        let pending = self.log.pending();
        let count = self.log.seal(vault)?;
        let mut entries = take_all(self.alloc, &mut self.pending);
        entries.truncate(count as usize);
        Ok(Kept {
            entries,
            dropped: pending - count,
        })
    }
}
