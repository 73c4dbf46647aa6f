// The logs that hold a region's unflushed commits are read.
ghost use Rattle.std.specs.Prelude.{◌≡◌, [], IfOk, OnOk, All};
ghost use Rattle.rep_model.specs.RegionEvents.{is_last};
ghost use Rattle.region_events.specs.Unflushed.{is_unflushed, with_log, log_noted, unflushed_logs, IsReadable, ReadTells};
ghost use Rattle.region_events.specs.declared.reading.ReadError.TheVariants.{Memory as OutOfMemory};

use cluster_core::{Kept, Shelf};
use log_split::{SplitError, split_log};
use rep_types::{Items, Logs, Memory, RegionId};
use rep_vault::Vault;
use std::alloc::Global;

/// Why logs weren't read: a call of the store failed, with its count of faults after it, or memory ran out.
#[derive(Clone, Copy)]
pub enum ReadError {
    StoreFault { count: u64 },
    Memory,
}

impl From<Memory> for ReadError {
    ghost from_gives = { λ _ e. e ≡ OutOfMemory };

    fn from(_: Memory) -> ReadError {
        ReadError::Memory
    }
}

fn is_unflushed(kept: &Kept, region: RegionId, above: u64) -> bool
    ensures { result ≡ is_unflushed region above kept.now }
{
    kept.region == region && kept.seq > above
}

#[tactic(auto, unfolding(rep_model::specs::Keyed::given))]
fn is_last(logs: &[u32], log: u32) -> bool
    ensures { result ≡ is_last log logs.now }
{
    match logs.last() {
        Some(last) => *last == log,
        None => false,
    }
}

fn add_log(logs: &mut Logs, log: u32) -> Result<(), Memory>
    ensures { OnOk result (logs.new ≡ with_log log logs.old) }
{
    if is_last(logs.as_slice(), log) {
        return Ok(());
    }
    logs.push(log)
}

fn note(logs: &mut Logs, kept: &Kept, region: RegionId, above: u64) -> Result<(), Memory>
    ensures { OnOk result (logs.new ≡ log_noted region above kept.now logs.old) }
{
    if is_unflushed(kept, region, above) {
        return add_log(logs, kept.log);
    }
    Ok(())
}

// The numbers of the logs that hold commits of the region above the sequence id. Along a server's commits the logs never
// fall, so they ascend and each stands once.
fn unflushed_logs(
    alloc: Global,
    shelf: &Shelf,
    region: RegionId,
    above: u64,
) -> Result<Logs, Memory>
    ensures { IfOk result (λ logs. logs ≡ unflushed_logs region above shelf.now) }
{
    let mut logs = Logs::new(alloc);
    for kept in shelf.kept.as_slice() {
        note(&mut logs, kept, region, above)?;
    }
    Ok(logs)
}

// Of one server.
fn read_shelf<V: Vault>(
    alloc: Global,
    own: &mut V,
    shelf: &Shelf,
    region: RegionId,
    above: u64,
) -> Result<(), ReadError>
    requires { IsReadable (V.contents own.old) region above shelf.now }
    ensures tells { ReadTells (V.tally own.old) (V.tally own.new) result }
    ensures same { V.contents own.new ≡ V.contents own.old }
{
    let logs = unflushed_logs(alloc, shelf, region, above)?;
    match split_log(alloc, own, shelf.server, logs.as_slice(), region, above) {
        Ok(_) => Ok(()),
        Err(SplitError::StoreFault { count, .. }) => Err(ReadError::StoreFault { count }),
        Err(SplitError::Memory) => Err(ReadError::Memory),
        Err(SplitError::BadFrame { .. }) => unreachable!(),
    }
}

/// Reads the region's commits above the sequence id from the logs of each server that has some, each log once. The entries
/// are let go: their cells stand in memory already, and no run file is written yet.
pub fn read_unflushed<V: Vault>(
    alloc: Global,
    own: &mut V,
    shelves: &Items<Shelf>,
    region: RegionId,
    above: u64,
) -> Result<(), ReadError>
    requires { All (IsReadable (V.contents own.old) region above) shelves.now }
    ensures tells { ReadTells (V.tally own.old) (V.tally own.new) result }
    ensures same { V.contents own.new ≡ V.contents own.old }
{
    for shelf in shelves.as_slice() {
        read_shelf(alloc, own, shelf, region, above)?;
    }
    Ok(())
}
