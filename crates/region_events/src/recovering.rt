// A region whose server has died is Off again, once that server's log is sealed.
ghost use Rattle.std.specs.Prelude.{◌≡◌, ◌-◌, ◌<◌, true, None, IfOk, IsSome, length, find, slice_get, Some};
ghost use Rattle.rep_types.specs.declared.event.Event.TheVariants as event;
ghost use Rattle.rep_vault.specs.Contents.{Contents};
ghost use Rattle.region_meta.specs.Regions.{region_of};
ghost use Rattle.rep_model.specs.Keyed.{if_some};
ghost use Rattle.rep_model.specs.RegionEvents.{recover_plan};
ghost use Rattle.rep_model.specs.Path.{refusal_of};
ghost use Rattle.rep_model.specs.State.{Route, of, is_server};
ghost use Rattle.rep_model.specs.Words.{is_in};
ghost use Rattle.rep_model.specs.Places.{lost_at};
ghost use Rattle.rep_model.specs.declared.machine.Machine.{Machine};
ghost use Rattle.rep_model.specs.declared.machine.Side.{Side};
ghost use Rattle.cluster_core.specs.declared.parts.Station.{Station};
ghost use Rattle.cluster_core.specs.Absorbing.{change_at};
ghost use Rattle.cluster_core.specs.Lookups.{ServersStand};
ghost use Rattle.cluster_core.specs.Memory.{map_of};
ghost use Rattle.cluster_core.specs.Stands.{Stands};
ghost use Rattle.cluster_core.specs.Does.{Standing, Reached, Answers, Counts, FaultTold};
ghost use Rattle.region_events.specs.Recovery.{recovered_trace, with_recovered, recovery_changes, IsPrepared};

use crate::reading::{ReadError, read_unflushed};
use cluster_core::{
    ClusterCore, CoreError, Station, Stored, Trace, put_records, region, region_change, station_at,
};
use region_meta::Region;
use rep_types::{Call, Items, Memory, PlaceOf, Refusal, RegionId, Reply, ServerId};
use rep_vault::{Change, Vault};
use std::alloc::Global;

fn lost_at(place: &PlaceOf) -> Option<ServerId>
    ensures { result ≡ lost_at place.now }
{
    match place {
        PlaceOf::Off => None,
        PlaceOf::Opening(_) => None,
        PlaceOf::On(_) => None,
        PlaceOf::Closing(_) => None,
        PlaceOf::Lost(server) => Some(*server),
        PlaceOf::Gone => None,
    }
}

fn station_sealed(stations: &Items<Station>, at: usize) -> bool
    requires { at < length stations.now }
    ensures { (st : Station) → slice_get stations.now at ≡ Some st → result ≡ st.sealed }
{
    let Some(station) = stations.get(at) else {
        unreachable!()
    };
    station.sealed
}

// Whether the server is there, with its log sealed.
#[tactic(auto, unfolding(rep_model::specs::Keyed::given))]
fn is_sealed(stations: &Items<Station>, server: ServerId) -> bool
    ensures { (c : Contents) (side : Side) → ServersStand c side stations.now
        → result ≡ if_some (find (is_server server) side.servers) (λ srv. srv.sealed) }
{
    match station_at(stations, server) {
        Some(at) => station_sealed(stations, at),
        None => false,
    }
}

// Why the region isn't recovered.
fn refusal(core: &ClusterCore, number: RegionId) -> Option<Refusal>
    ensures { (m : Machine) (c : Contents) → core.now.map ≡ map_of (of core.now.own m) → ServersStand c (of core.now.own m) core.now.stations
        → result ≡ refusal_of (recover_plan core.now.own number m) }
{
    let found = match region(&core.map, number) {
        Some(found) => found,
        None => return Some(Refusal::NoRegion),
    };
    let server = match lost_at(&found.place) {
        Some(server) => server,
        None => return Some(Refusal::WrongPlace { have: found.place }),
    };
    if !is_sealed(&core.stations, server) {
        return Some(Refusal::NotSealed { server });
    }
    None
}

// The record of a region that is Off.
fn changes(alloc: Global, region: &Region) -> Result<Vec<Change>, Memory>
    ensures { IfOk result (λ changes. changes.items ≡ recovery_changes region.now) }
{
    let mut changes = Vec::new(alloc);
    changes.push(region_change(alloc, region, &PlaceOf::Off)?)?;
    Ok(changes)
}

// How many commits of a region are flushed, and its record.
#[derive(Drop)]
struct Recovery {
    flushed: u64,
    changes: Vec<Change>,
}

fn prepare(core: &ClusterCore, alloc: Global, number: RegionId) -> Result<Recovery, Memory>
    requires known { IsSome (region_of number core.now.map) }
    requires traced { number - 1 < length core.now.index.traces }
    ensures { IfOk result (λ next. IsPrepared core.now number next.flushed next.changes.items) }
{
    let Some(found) = core.map.region(number) else {
        unreachable!()
    };
    let Some(trace) = core.index.traces.get(number.number() as usize - 1) else {
        unreachable!()
    };
    Ok(Recovery {
        flushed: trace.flushed,
        changes: changes(alloc, found)?,
    })
}

// All commits of the region are flushed.
fn flush(traces: &mut Items<Trace>, region: RegionId)
    ensures { traces.new ≡ change_at recovered_trace (region - 1) traces.old }
{
    let at = region.number() as usize - 1;
    if at < traces.len() {
        let trace = traces.at_mut(at);
        trace.flushed = trace.commits;
    }
}

// The region is Off in memory, with all of its commits flushed.
fn leave(core: &mut ClusterCore, region: RegionId)
    requires { IsSome (region_of region core.old.map) }
    ensures { core.new ≡ with_recovered region core.old }
{
    flush(&mut core.index.traces, region);
    core.map.set_place(region, PlaceOf::Off);
}

/// A region that is Lost, at a server whose log is sealed, is Off, and all of its commits are flushed. Its unflushed commits
/// are read from the logs before its record is put, and memory changes last, so a call that fails leaves all as it was.
pub fn recover<V: Vault>(
    core: &mut ClusterCore,
    alloc: Global,
    own: &mut V,
    region: RegionId,
) -> Result<Reply, CoreError>
    requires { Standing core.old.own (V.contents own.old) core.old }
    ensures does { (way : Route) (m : Machine) → Reached way m → is_in way core.old.own ≡ true → Stands core.old.own (V.contents own.old) core.old (of core.old.own m)
        → Answers way core.old.own (event.Recover core.old.own region) m (V.contents own.old) core.old (V.contents own.new) core.new result }
    ensures counts { Counts (V.tally own.old) (V.tally own.new) }
    ensures told { IfOk result (λ reply. FaultTold core.old.own reply (V.tally own.old) (V.tally own.new)) }
{
    match refusal(core, region) {
        Some(why) => return Ok(Reply::Refused(why)),
        None => {}
    }
    let Ok(next) = prepare(core, alloc, region) else {
        return Err(CoreError::Memory { changed: false });
    };
    let Recovery { flushed, changes } = next;
    match read_unflushed(alloc, own, &core.index.shelves, region, flushed) {
        Ok(()) => {}
        Err(ReadError::StoreFault { count }) => {
            return Ok(Reply::StoreFault {
                store: core.own,
                call: Call::Read,
                count,
            });
        }
        Err(ReadError::Memory) => return Err(CoreError::Memory { changed: false }),
    }
    match put_records(own, &changes) {
        Stored::Done => {
            leave(core, region);
            Ok(Reply::Done)
        }
        Stored::Fault(count) => Ok(Reply::StoreFault {
            store: core.own,
            call: Call::Put,
            count,
        }),
        Stored::NoMemory => Err(CoreError::Memory { changed: false }),
    }
}
