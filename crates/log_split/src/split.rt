ghost use Rattle.std.specs.Prelude.{◌≡◌, ◌≢◌, ◌++◌, ◌∷◌, [], None, Some, Ok, Err, ℕ, List, IfOk, IfErr, OnOk, All};
ghost use Rattle.std.specs.List.{filter};
ghost use Rattle.rep_types.specs.declared.entry.Entry.{Entry};
ghost use Rattle.rep_vault.specs.Contents.{File};
ghost use Rattle.wal_reader.specs.Reader.{starting, fed};
ghost use Rattle.wal_roll.specs.Log.{wal, log_name};
ghost use Rattle.log_split.specs.Held.{is_above, HoldsEntries, IsBadAt};
ghost use Rattle.log_split.specs.Logs.{LogHolds, LogIsBad, HoldAll, FirstBad};
ghost use Rattle.log_split.specs.Told.{IfBad, IfFault, Tells, UnlessStopped};

use crate::SplitError;
use rep_types::{Bytes, Call, Entries, Entry, Memory, RegionId, ServerId};
use rep_vault::{Tried, Vault, try_read};
use std::alloc::Global;
use wal_reader::{LogReader, Next};
use wal_roll::{FOLDER, file_name};

// A reader that was fed with a whole log, which is read once.
fn fed_with<V: Vault>(
    alloc: Global,
    vault: &mut V,
    server: ServerId,
    log: u32,
) -> Result<LogReader, SplitError>
    requires { (V.contents vault.old).files wal (log_name server log) ≢ None }
    ensures fed { IfOk result (λ reader. (file : File)
        × ((V.contents vault.old).files wal (log_name server log) ≡ Some file)
        × (reader ≡ fed file.bytes (starting log 0))) }
    ensures bad { IfErr result (λ e. IfBad e (λ _ _ _. ⊥)) }
    ensures fault { Tells (V.tally vault.old) (V.tally vault.new) result }
    ensures kept { V.contents vault.new ≡ V.contents vault.old }
{
    let name = file_name(alloc, server, log)?;
    let mut bytes = Bytes::new(alloc);
    match try_read(vault, FOLDER, name.as_str(), 0, u64::MAX, &mut bytes) {
        Tried::Done => {
            let mut reader = LogReader::new(alloc, log, 0);
            reader.feed(bytes.as_slice())?;
            Ok(reader)
        }
        Tried::NotDone => Err(SplitError::StoreFault {
            call: Call::Read,
            count: vault.faults(),
        }),
        Tried::NoMemory => Err(SplitError::Memory),
    }
}

// Adds the entry where it is of the region and above the sequence id.
fn keep(found: &mut Entries, entry: Entry, region: RegionId, above: u64) -> Result<(), Memory>
    ensures { OnOk result (found.new ≡ found.old ++ filter (is_above region above) (entry ∷ [])) }
{
    if entry.region == region && entry.seq > above {
        found.push(entry)?;
    }
    Ok(())
}

// Takes all the reader's entries, and keeps those of the region above the sequence id.
fn take_entries(
    reader: &mut LogReader,
    region: RegionId,
    above: u64,
    found: &mut Entries,
) -> Result<(), SplitError>
    ensures entries { OnOk result ((here : List Entry) × HoldsEntries reader.old.left here
        × (found.new ≡ found.old ++ filter (is_above region above) here)) }
    ensures bad { IfErr result (λ e. IfBad e (λ log at rule. (log ≡ reader.old.place.log)
        × IsBadAt reader.old.place.offset reader.old.left at rule)) }
    ensures own { IfErr result (λ e. IfFault e (λ _ _. ⊥)) }
{
    while let Next::Entry(entry) = reader.next()? {
        keep(found, entry, region, above)?;
    }
    Ok(())
}

// One log.
fn split_one<V: Vault>(
    alloc: Global,
    vault: &mut V,
    server: ServerId,
    log: u32,
    region: RegionId,
    above: u64,
    found: &mut Entries,
) -> Result<(), SplitError>
    requires { (V.contents vault.old).files wal (log_name server log) ≢ None }
    ensures entries { OnOk result ((here : List Entry) × LogHolds (V.contents vault.old) server log here
        × (found.new ≡ found.old ++ filter (is_above region above) here)) }
    ensures bad { IfErr result (λ e. IfBad e (λ number at rule. (number ≡ log)
        × LogIsBad (V.contents vault.old) server log at rule)) }
    ensures fault { Tells (V.tally vault.old) (V.tally vault.new) result }
    ensures kept { V.contents vault.new ≡ V.contents vault.old }
{
    let mut reader = fed_with(alloc, vault, server, log)?;
    take_entries(&mut reader, region, above, found)
}

// `split_log`, in what its answers say.
fn split_all<V: Vault>(
    alloc: Global,
    vault: &mut V,
    server: ServerId,
    logs: &[u32],
    region: RegionId,
    above: u64,
) -> Result<Entries, SplitError>
    requires { All (λ log. (V.contents vault.old).files wal (log_name server log) ≢ None) logs.now }
    ensures entries { IfOk result (λ found. (all : List Entry)
        × HoldAll (V.contents vault.old) server logs.now all
        × (found ≡ filter (is_above region above) all)) }
    ensures bad { IfErr result (λ e. IfBad e (FirstBad (V.contents vault.old) server logs.now)) }
    ensures fault { Tells (V.tally vault.old) (V.tally vault.new) result }
    ensures kept { V.contents vault.new ≡ V.contents vault.old }
{
    let mut found = Entries::new(alloc);
    for log in logs {
        split_one(alloc, vault, server, *log, region, above, &mut found)?;
    }
    Ok(found)
}

/// The region's entries above a sequence id in these logs of a server, in order. Each log is read once, and memory is held
/// for one log at a time. A frame that is cut off at the end of a log is given up.
pub fn split_log<V: Vault>(
    alloc: Global,
    vault: &mut V,
    server: ServerId,
    logs: &[u32],
    region: RegionId,
    above: u64,
) -> Result<Entries, SplitError>
    requires stand { All (λ log. (V.contents vault.old).files wal (log_name server log) ≢ None) logs.now }
    // What is given are those of the entries that all the logs hold.
    ensures entries { IfOk result (λ found. (all : List Entry)
        × HoldAll (V.contents vault.old) server logs.now all
        × (found ≡ filter (is_above region above) all)) }
    // Where all the logs hold entries, those are given.
    ensures all { (all : List Entry) → HoldAll (V.contents vault.old) server logs.now all
        → UnlessStopped result (Ok (filter (is_above region above) all)) }
    // A bad frame that is told is the first.
    ensures bad { IfErr result (λ e. IfBad e (FirstBad (V.contents vault.old) server logs.now)) }
    // Where there is one, it is told.
    ensures first { (log at rule : ℕ) → FirstBad (V.contents vault.old) server logs.now log at rule
        → UnlessStopped result (Err (SplitError.BadFrame log at rule)) }
    ensures fault { Tells (V.tally vault.old) (V.tally vault.new) result }
    ensures kept { V.contents vault.new ≡ V.contents vault.old }
{
    split_all(alloc, vault, server, logs, region, above)
}
