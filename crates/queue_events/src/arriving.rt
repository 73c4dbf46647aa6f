// A form arrives: it is appended to the log of the server that serves its row, and synced with all that is pending there.
ghost use Rattle.std.specs.Prelude.{◌≡◌, ◌<◌, false, IfOk, length};
ghost use Rattle.rep_model.specs.State.{of};
ghost use Rattle.rep_model.specs.declared.machine.Machine.{Machine};
ghost use Rattle.cluster_core.specs.Lookups.{HasSeat};
ghost use Rattle.cluster_core.specs.Stands.{Stands};
ghost use Rattle.cluster_core.specs.Does.{Counts};
ghost use Rattle.queue_events.specs.Arriving.{arriving_entry, MayArrive, IsMidway, Arrives, ArrivalTold};
ghost use Rattle.queue_events.specs.Entered.{arrived_by};

use cluster_core::{
    ClusterCore, CoreError, CurrentLog, EntryError, Seat, commit_entry, current_log,
    located_number, next_id, seat_of,
};
use rep_model::Form;
use rep_types::{
    Cause, Cluster, Duplicate, Entry, EntryKind, Memory, Origin, PeerId, Phase, RegionId,
    SyncState, Tickets,
};
use rep_vault::Vault;
use std::alloc::Global;

/// What became of a form: it was committed, with the tickets of puts that were pending before it; or what stopped it.
#[derive(Drop)]
pub enum Arrived {
    Taken(Tickets),
    Stopped(Cause),
}

// The entry that the form becomes.
fn arriving_entry(
    alloc: Global,
    region: RegionId,
    seq: u64,
    peer: PeerId,
    form: &Form,
) -> Result<Entry, Memory>
    ensures { IfOk result (λ entry. entry ≡ arriving_entry region seq peer form.now) }
{
    Ok(Entry {
        region,
        seq,
        kind: EntryKind::Write(form.edit.copy(alloc)?),
        marks: form.marks,
        origin: Some(Origin {
            peer,
            entry: form.source,
        }),
    })
}

// What became of the form, by what became of its entry.
fn arrived_by(
    done: Result<Tickets, EntryError>,
    store: Cluster,
    log: &CurrentLog,
) -> Result<Arrived, CoreError>
    ensures { result ≡ arrived_by store log.now.server log.now.number done }
{
    match done {
        Ok(tickets) => Ok(Arrived::Taken(tickets)),
        Err(EntryError::Broken) => Ok(Arrived::Stopped(Cause::Broken { log: log.number })),
        Err(EntryError::NeedRoll { used, need }) => Ok(Arrived::Stopped(Cause::NeedRoll {
            server: log.server,
            used,
            need,
        })),
        Err(EntryError::StoreFault { call, count }) => {
            Ok(Arrived::Stopped(Cause::StoreFault { store, call, count }))
        }
        Err(EntryError::Memory { changed }) => Err(CoreError::Memory { changed }),
    }
}

// The form is taken at its seat.
fn take<V: Vault>(
    core: &mut ClusterCore,
    alloc: Global,
    own: &mut V,
    seat: &Seat,
    peer: PeerId,
    form: &Form,
) -> Result<Arrived, CoreError>
    requires within { seat.now.station < length core.old.stations }
    requires seated { (m : Machine) × IsMidway core.old.own m × Stands core.old.own (V.contents own.old) core.old (of core.old.own m)
        × HasSeat (V.contents own.old) (of core.old.own m) core.old.stations form.now.edit.table form.now.edit.row seat.now.region seat.now.station }
    requires may { MayArrive form.now }
    ensures does { (m : Machine) → IsMidway core.old.own m → Stands core.old.own (V.contents own.old) core.old (of core.old.own m)
        → HasSeat (V.contents own.old) (of core.old.own m) core.old.stations form.now.edit.table form.now.edit.row seat.now.region seat.now.station
        → Arrives core.old.own peer false form.now m (V.contents own.old) core.old (V.contents own.new) core.new result }
    ensures counts { Counts (V.tally own.old) (V.tally own.new) }
    ensures told { IfOk result (λ arrived. ArrivalTold core.old.own arrived (V.tally own.old) (V.tally own.new)) }
{
    let store = core.own;
    let region = seat.region;
    let Some(seq) = next_id(&core.index, region) else {
        return Err(CoreError::Memory { changed: false });
    };
    let Ok(entry) = arriving_entry(alloc, region, seq, peer, form) else {
        return Err(CoreError::Memory { changed: false });
    };
    let log = current_log(&core.stations, seat.station);
    let done = commit_entry(core, alloc, own, seat.station, entry);
    arrived_by(done, store, &log)
}

/// The form of a flight of this peer arrives, unless something stops it. A failed append or sync leaves the log broken and
/// the form's entry pending.
pub fn arrive<V: Vault>(
    core: &mut ClusterCore,
    alloc: Global,
    own: &mut V,
    peer: PeerId,
    synchronous: bool,
    form: &Form,
) -> Result<Arrived, CoreError>
    requires standing { (m : Machine) × IsMidway core.old.own m × Stands core.old.own (V.contents own.old) core.old (of core.old.own m) }
    requires may { MayArrive form.now }
    ensures does { (m : Machine) → IsMidway core.old.own m → Stands core.old.own (V.contents own.old) core.old (of core.old.own m)
        → Arrives core.old.own peer synchronous form.now m (V.contents own.old) core.old (V.contents own.new) core.new result }
    ensures counts { Counts (V.tally own.old) (V.tally own.new) }
    ensures told { IfOk result (λ arrived. ArrivalTold core.old.own arrived (V.tally own.old) (V.tally own.new)) }
{
    if synchronous {
        return Ok(Arrived::Stopped(Cause::WrongState {
            have: SyncState::Absent,
            phase: Phase::Idle,
        }));
    }
    let table = form.edit.table();
    let row = form.edit.row();
    match seat_of(core, table, row) {
        Some(seat) => take(core, alloc, own, &seat, peer, form),
        None => Ok(Arrived::Stopped(Cause::NotServing {
            region: located_number(&core.map, table, row),
        })),
    }
}
