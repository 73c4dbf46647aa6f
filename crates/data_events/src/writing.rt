// A put: an edit is appended to the log of the server that serves its row.
ghost use Rattle.std.specs.Prelude.{◌≡◌, ◌+◌, ◌≤◌, ◌<◌, true, false, All, Some, IfOk, MatchResult, length};
ghost use Rattle.std.specs.List.{list_all};
ghost use Rattle.rep_types.specs.Edit.{edit_length, repeats};
ghost use Rattle.rep_types.specs.declared.event.Event.TheVariants as event;
ghost use Rattle.rep_vault.specs.Contents.{Contents};
ghost use Rattle.wal_entry.specs.Framed.{HasValue, IsTypedEdit};
ghost use Rattle.rep_model.specs.State.{Route, of};
ghost use Rattle.rep_model.specs.Words.{is_in, are_cells};
ghost use Rattle.rep_model.specs.LogEvents.{put_edit, has_family, put_plan};
ghost use Rattle.rep_model.specs.Path.{refusal_of};
ghost use Rattle.rep_model.specs.declared.machine.Machine.{Machine};
ghost use Rattle.cluster_core.specs.Stands.{Stands};
ghost use Rattle.cluster_core.specs.Does.{Reached, Standing, Answers, FaultTold, Counts};
ghost use Rattle.data_events.specs.Writes.{MayPut, put_reply};

use crate::typed::cells_are_typed;
use cluster_core::{
    ClusterCore, CoreError, CurrentLog, Seat, accept, current_log, families, located_number, mark,
    next_id, seat_of,
};
use rep_types::{
    Cell, Cells, Cluster, Duplicate, Edit, Entry, EntryKind, Families, Key, Memory, Name, Refusal,
    RegionId, Reply, edit_length,
};
use rep_vault::Vault;
use std::alloc::Global;
use wal_roll::LogError;

fn has_family(families: &Families, cell: &Cell) -> bool
    ensures { result ≡ has_family families.now cell.now }
{
    families
        .as_slice()
        .iter()
        .any(|family| family.name == cell.family)
}

fn has_families(families: &Families, cells: &Cells) -> bool
    ensures { result ≡ list_all (has_family families.now) cells.now }
{
    cells
        .as_slice()
        .iter()
        .all(|cell| has_family(families, cell))
}

// Where the put goes, or what speaks against it before its log does.
fn may_put(core: &ClusterCore, table: &Name, row: &Key, cells: &Cells) -> Result<Seat, Refusal>
    ensures within { IfOk result (λ x. x.station < length core.now.stations) }
    ensures short { IfOk result (λ x. edit_length (put_edit table.now row.now cells.now) ≤ 8192) }
    ensures state { (c : Contents) (m : Machine) → Stands core.now.own c core.now (of core.now.own m)
        → MatchResult result (λ x. MayPut core.now.own c table.now row.now cells.now m core.now.stations x.region x.station)
        (λ why. refusal_of (put_plan core.now.own table.now row.now cells.now m) ≡ Some why) }
{
    let have = edit_length(table, row, cells.as_slice());
    if have > 8192 {
        return Err(Refusal::TooLong { have });
    }
    let Some(held) = families(&core.map, table) else {
        return Err(Refusal::NoTable);
    };
    if !has_families(held, cells) {
        return Err(Refusal::NoFamily);
    }
    match seat_of(core, table, row) {
        Some(seat) => Ok(seat),
        None => Err(Refusal::NotServing {
            region: located_number(&core.map, table, row),
        }),
    }
}

// The edit of a put that isn't refused.
fn made_edit(alloc: Global, table: &Name, row: &Key, cells: Cells) -> Result<Edit, Memory>
    requires some { 0 < length cells }
    requires few { length cells ≤ 64 }
    requires distinct { repeats cells ≡ false }
    requires values { All (λ c. HasValue c.kind) cells }
    requires short { edit_length (put_edit table.now row.now cells) ≤ 8192 }
    ensures made { IfOk result (λ edit. edit ≡ put_edit table.now row.now cells) }
    ensures typed { IfOk result (λ edit. IsTypedEdit edit) }
    ensures values { IfOk result (λ edit. All (λ c. HasValue c.kind) edit.cells) }
{
    cells_are_typed(cells.as_slice());
    let _name = table.as_str();
    let _key = row.as_str();
    match Edit::new(table.copy(alloc)?, row.copy(alloc)?, cells) {
        Ok(edit) => Ok(edit),
        Err(_) => unreachable!(),
    }
}

fn put_reply(
    done: Result<(), LogError>,
    own: Cluster,
    log: &CurrentLog,
    region: RegionId,
    seq: u64,
    ticket: u32,
) -> Result<Reply, CoreError>
    ensures { result ≡ put_reply own log.now.server log.now.number region seq ticket done }
{
    match done {
        Ok(()) => Ok(Reply::Accepted {
            region,
            seq,
            ticket,
        }),
        Err(LogError::Broken) => Ok(Reply::Refused(Refusal::Broken { log: log.number })),
        Err(LogError::NeedRoll { used, need, .. }) => Ok(Reply::Refused(Refusal::NeedRoll {
            server: log.server,
            used,
            need,
        })),
        Err(LogError::StoreFault { call, count }) => Ok(Reply::StoreFault {
            store: own,
            call,
            count,
        }),
        Err(LogError::Memory) => Err(CoreError::Memory { changed: false }),
    }
}

// The edit is pending in the log of the seat's server.
fn write<V: Vault>(
    core: &mut ClusterCore,
    own: &mut V,
    seat: &Seat,
    edit: Edit,
    ticket: u32,
) -> Result<Reply, CoreError>
    requires within { seat.now.station < length core.old.stations }
    requires seated { (way : Route) × (m : Machine) × Reached way m × (is_in way core.old.own ≡ true) × Stands core.old.own (V.contents own.old) core.old (of core.old.own m)
        × MayPut core.old.own (V.contents own.old) edit.table edit.row edit.cells m core.old.stations seat.now.region seat.now.station }
    requires typed { IsTypedEdit edit }
    requires values { All (λ c. HasValue c.kind) edit.cells }
    ensures does { (way : Route) (m : Machine) → Reached way m → is_in way core.old.own ≡ true → Stands core.old.own (V.contents own.old) core.old (of core.old.own m)
        → MayPut core.old.own (V.contents own.old) edit.table edit.row edit.cells m core.old.stations seat.now.region seat.now.station
        → ticket ≡ length m.tickets + 1
        → Answers way core.old.own (event.Put core.old.own edit.table edit.row edit.cells) m (V.contents own.old) core.old (V.contents own.new) core.new result }
    ensures counts { Counts (V.tally own.old) (V.tally own.new) }
    ensures told { IfOk result (λ reply. FaultTold core.old.own reply (V.tally own.old) (V.tally own.new)) }
{
    let cluster = core.own;
    let region = seat.region;
    let Some(seq) = next_id(&core.index, region) else {
        return Err(CoreError::Memory { changed: false });
    };
    let log = current_log(&core.stations, seat.station);
    let entry = Entry {
        region,
        seq,
        kind: EntryKind::Write(edit),
        marks: mark(cluster),
        origin: None,
    };
    let done = accept(core, own, seat.station, entry, Some(ticket));
    put_reply(done, cluster, &log, region, seq, ticket)
}

/// A write is pending in the log of the server that serves its row, and gets the next ticket. A write that may not be is
/// refused, and changes nothing; one whose append fails in the store leaves the log broken, and gets no ticket.
pub fn put<V: Vault>(
    core: &mut ClusterCore,
    alloc: Global,
    own: &mut V,
    table: &Name,
    row: &Key,
    cells: Cells,
    ticket: u32,
) -> Result<Reply, CoreError>
    requires standing { Standing core.old.own (V.contents own.old) core.old }
    requires worded { are_cells cells ≡ true }
    ensures does { (way : Route) (m : Machine) → Reached way m → is_in way core.old.own ≡ true → Stands core.old.own (V.contents own.old) core.old (of core.old.own m)
        → ticket ≡ length m.tickets + 1
        → Answers way core.old.own (event.Put core.old.own table.now row.now cells) m (V.contents own.old) core.old (V.contents own.new) core.new result }
    ensures counts { Counts (V.tally own.old) (V.tally own.new) }
    ensures told { IfOk result (λ reply. FaultTold core.old.own reply (V.tally own.old) (V.tally own.new)) }
{
    let seat = match may_put(core, table, row, &cells) {
        Ok(seat) => seat,
        Err(why) => return Ok(Reply::Refused(why)),
    };
    match made_edit(alloc, table, row, cells) {
        Ok(edit) => write(core, own, &seat, edit, ticket),
        Err(Memory) => Err(CoreError::Memory { changed: false }),
    }
}
