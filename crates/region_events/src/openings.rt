ghost use Rattle.std.specs.Prelude.{◌≡◌, ◌-◌, ◌<◌, ◌≤◌, true, None, Some, IsSome, IfOk, OnOk, length, slice_get};
ghost use Rattle.std.specs.Option.{ForSome};
ghost use Rattle.rep_vault.specs.Contents.{Contents};
ghost use Rattle.rep_types.specs.declared.event.Event.TheVariants as event;
ghost use Rattle.rep_types.specs.declared.state.PlaceOf.TheVariants as place;
ghost use Rattle.region_barriers.specs.History.{last_barrier};
ghost use Rattle.region_meta.specs.Regions.{region_of};
ghost use Rattle.rep_model.specs.Path.{refusal_of};
ghost use Rattle.rep_model.specs.State.{Route, of};
ghost use Rattle.rep_model.specs.Words.{is_in};
ghost use Rattle.rep_model.specs.Places.{is_off};
ghost use Rattle.rep_model.specs.RegionEvents.{is_last, with_barrier, open_begin_plan};
ghost use Rattle.rep_model.specs.declared.machine.Machine.{Machine};
ghost use Rattle.cluster_core.specs.declared.parts.Trace.{Trace};
ghost use Rattle.cluster_core.specs.declared.parts.Station.{Station};
ghost use Rattle.cluster_core.specs.Absorbing.{change_at};
ghost use Rattle.cluster_core.specs.Lookups.{ServersStand};
ghost use Rattle.cluster_core.specs.Memory.{map_of};
ghost use Rattle.cluster_core.specs.Stands.{Stands};
ghost use Rattle.cluster_core.specs.Does.{Standing, Reached, Answers, Counts, FaultTold};
ghost use Rattle.region_events.specs.Effects.{opened_trace, with_opening, opening_changes, IsPrepared, Reaches};

use cluster_core::{
    ClusterCore, CoreError, Station, Stored, Trace, barriers_change, put_records, region,
    region_change, station_at,
};
use region_barriers::Barriers;
use region_meta::Region;
use rep_types::{Call, Items, Memory, PlaceOf, Refusal, RegionId, Reply, ServerId};
use rep_vault::{Change, Vault};
use std::alloc::Global;

fn is_off(place: &PlaceOf) -> bool
    ensures { result ≡ is_off place.now }
{
    match place {
        PlaceOf::Off => true,
        PlaceOf::Opening(_) => false,
        PlaceOf::On(_) => false,
        PlaceOf::Closing(_) => false,
        PlaceOf::Lost(_) => false,
        PlaceOf::Gone => false,
    }
}

fn lives(stations: &Items<Station>, at: usize) -> bool
    requires { at < length stations.now }
    ensures { (st : Station) → slice_get stations.now at ≡ Some st → result ≡ st.live }
{
    let Some(station) = stations.get(at) else {
        unreachable!()
    };
    station.live
}

// Why the region doesn't begin to open.
fn refusal(core: &ClusterCore, number: RegionId, server: ServerId) -> Option<Refusal>
    ensures { (m : Machine) (c : Contents) → core.now.map ≡ map_of (of core.now.own m) → ServersStand c (of core.now.own m) core.now.stations
        → result ≡ refusal_of (open_begin_plan core.now.own number server m) }
{
    let found = match region(&core.map, number) {
        Some(found) => found,
        None => return Some(Refusal::NoRegion),
    };
    let at = match station_at(&core.stations, server) {
        Some(at) => at,
        None => return Some(Refusal::NoServer),
    };
    if !lives(&core.stations, at) {
        return Some(Refusal::Dead { server });
    }
    if !is_off(&found.place) {
        return Some(Refusal::WrongPlace { have: found.place });
    }
    None
}

#[tactic(auto, unfolding(rep_model::specs::Keyed::given))]
fn is_last(barriers: &[u64], barrier: u64) -> bool
    ensures { result ≡ is_last barrier barriers.now }
{
    match barriers.last() {
        Some(last) => *last == barrier,
        None => false,
    }
}

// The barriers with one more, which is recorded once where it is the last already.
fn next_barriers(alloc: Global, barriers: &[u64], barrier: u64) -> Result<Vec<u64>, Memory>
    ensures { IfOk result (λ next. next.items ≡ with_barrier barrier barriers.now) }
{
    let mut next = Vec::from_slice(alloc, barriers)?;
    if !is_last(barriers, barrier) {
        next.push(barrier)?;
    }
    Ok(next)
}

// The last barrier isn't above this one.
fn add_barrier(barriers: &mut Barriers, barrier: u64) -> Result<(), Memory>
    requires least { 1 ≤ barrier }
    requires order { ForSome (last_barrier barriers.old) (λ last. last ≤ barrier) }
    ensures { OnOk result (barriers.new ≡ record barriers.old { barriers = with_barrier barrier barriers.old.barriers }) }
{
    if is_last(barriers.barriers(), barrier) {
        return Ok(());
    }
    barriers.add(barrier)
}

// The records of an opening region and its barriers.
fn changes(
    alloc: Global,
    region: &Region,
    server: ServerId,
    barriers: &[u64],
) -> Result<Vec<Change>, Memory>
    ensures { IfOk result (λ changes. changes.items ≡ opening_changes server barriers.now region.now) }
{
    let mut changes = Vec::new(alloc);
    changes.push(region_change(alloc, region, &PlaceOf::Opening(server))?)?;
    changes.push(barriers_change(alloc, region.number, barriers, 0)?)?;
    Ok(changes)
}

// What an opening region's barrier is, and its records.
#[derive(Drop)]
struct Opening {
    barrier: u64,
    changes: Vec<Change>,
}

fn prepare(
    core: &ClusterCore,
    alloc: Global,
    number: RegionId,
    server: ServerId,
) -> Result<Opening, Memory>
    requires known { IsSome (region_of number core.now.map) }
    requires traced { number - 1 < length core.now.index.traces }
    ensures { IfOk result (λ next. IsPrepared core.now number server next.barrier next.changes.items) }
{
    let Some(found) = core.map.region(number) else {
        unreachable!()
    };
    let Some(trace) = core.index.traces.get(number.number() as usize - 1) else {
        unreachable!()
    };
    let Some(barrier) = trace.commits.checked_add(1) else {
        return Err(Memory);
    };
    let barriers = next_barriers(alloc, trace.barriers.barriers(), barrier)?;
    Ok(Opening {
        barrier,
        changes: changes(alloc, found, server, &barriers)?,
    })
}

fn note(traces: &mut Items<Trace>, region: RegionId, barrier: u64) -> Result<(), Memory>
    requires within { region - 1 < length traces.old }
    requires least { 1 ≤ barrier }
    requires order { Reaches barrier (region - 1) traces.old }
    ensures { OnOk result (traces.new ≡ change_at (opened_trace barrier) (region - 1) traces.old) }
{
    let trace = traces.at_mut(region.number() as usize - 1);
    add_barrier(&mut trace.barriers, barrier)
}

// The region is Opening in memory, with its barrier.
fn open(
    core: &mut ClusterCore,
    region: RegionId,
    server: ServerId,
    barrier: u64,
) -> Result<(), Memory>
    requires known { IsSome (region_of region core.old.map) }
    requires within { region - 1 < length core.old.index.traces }
    requires least { 1 ≤ barrier }
    requires order { Reaches barrier (region - 1) core.old.index.traces }
    ensures { OnOk result (core.new ≡ with_opening region server barrier core.old) }
{
    note(&mut core.index.traces, region, barrier)?;
    core.map.set_place(region, PlaceOf::Opening(server));
    Ok(())
}

/// A region that is Off begins to open on a live server, and its next sequence id is its barrier.
pub fn open_begin<V: Vault>(
    core: &mut ClusterCore,
    alloc: Global,
    own: &mut V,
    region: RegionId,
    server: ServerId,
) -> Result<Reply, CoreError>
    requires { Standing core.old.own (V.contents own.old) core.old }
    ensures does { (way : Route) (m : Machine) → Reached way m → is_in way core.old.own ≡ true → Stands core.old.own (V.contents own.old) core.old (of core.old.own m)
        → Answers way core.old.own (event.OpenBegin core.old.own region server) m (V.contents own.old) core.old (V.contents own.new) core.new result }
    ensures counts { Counts (V.tally own.old) (V.tally own.new) }
    ensures told { IfOk result (λ reply. FaultTold core.old.own reply (V.tally own.old) (V.tally own.new)) }
{
    match refusal(core, region, server) {
        Some(why) => return Ok(Reply::Refused(why)),
        None => {}
    }
    let Ok(next) = prepare(core, alloc, region, server) else {
        return Err(CoreError::Memory { changed: false });
    };
    let Opening { barrier, changes } = next;
    match put_records(own, &changes) {
        Stored::Done => match open(core, region, server, barrier) {
            Ok(()) => Ok(Reply::Begun { barrier }),
            Err(_) => Err(CoreError::Memory { changed: true }),
        },
        Stored::Fault(count) => Ok(Reply::StoreFault {
            store: core.own,
            call: Call::Put,
            count,
        }),
        Stored::NoMemory => Err(CoreError::Memory { changed: false }),
    }
}
