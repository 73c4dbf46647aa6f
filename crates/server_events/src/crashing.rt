// A server dies.
ghost use Rattle.std.specs.Prelude.{◌≡◌, ◌<◌, Some, true, IfOk, MatchResult, length, slice_get, slice_set};
ghost use Rattle.rep_types.specs.declared.event.Event.TheVariants as event;
ghost use Rattle.rep_vault.specs.Contents.{Contents};
ghost use Rattle.rep_model.specs.Calm.{is_calm};
ghost use Rattle.rep_model.specs.Places.{after_death};
ghost use Rattle.rep_model.specs.State.{Route, of};
ghost use Rattle.rep_model.specs.Words.{is_in};
ghost use Rattle.rep_model.specs.Path.{refusal_of};
ghost use Rattle.rep_model.specs.LogEvents.{crash_plan};
ghost use Rattle.rep_model.specs.declared.machine.Machine.{Machine};
ghost use Rattle.cluster_core.specs.declared.parts.Station.{Station};
ghost use Rattle.cluster_core.specs.Lookups.{ServersStand};
ghost use Rattle.cluster_core.specs.Stands.{Stands};
ghost use Rattle.cluster_core.specs.Does.{Reached, Answers};
ghost use Rattle.server_events.specs.Crashes.{MayDie, dead_station, all_lost, AreNumbered};

use cluster_core::{ClusterCore, CoreError, Station, station_at};
use region_meta::RegionMap;
use rep_types::{Items, PlaceOf, Refusal, Reply, ServerId, Tickets};

fn lives_at(stations: &Items<Station>, at: usize) -> bool
    requires { at < length stations.now }
    ensures { (st : Station) → slice_get stations.now at ≡ Some st → result ≡ st.live }
{
    stations.as_slice()[at].live
}

// The place of a live server's station, or why the server doesn't die.
fn live_place(core: &ClusterCore, server: ServerId) -> Result<usize, Refusal>
    ensures within { IfOk result (λ at. at < length core.now.stations) }
    ensures state { (c : Contents) (m : Machine) → ServersStand c (of core.now.own m) core.now.stations
        → MatchResult result (λ at. MayDie c (of core.now.own m) core.now.stations server at) (λ why. refusal_of (crash_plan core.now.own server m) ≡ Some why) }
{
    let Some(at) = station_at(&core.stations, server) else {
        return Err(Refusal::NoServer);
    };
    if !lives_at(&core.stations, at) {
        return Err(Refusal::Dead { server });
    }
    Ok(at)
}

// The server at this place dies, and gives up its tickets.
fn die(stations: &mut Items<Station>, at: usize) -> Tickets
    requires { at < length stations.old }
    ensures tickets { (st : Station) → slice_get stations.old at ≡ Some st → result ≡ st.host.tickets }
    ensures left { (st : Station) → slice_get stations.old at ≡ Some st → stations.new ≡ slice_set stations.old at (dead_station st) }
{
    let station = stations.at_mut(at);
    station.live = false;
    station.host.give_up()
}

// Where a region is once the server has died.
fn after_death(server: ServerId, place: &PlaceOf) -> PlaceOf
    ensures { result ≡ after_death server place.now }
{
    match place {
        PlaceOf::Opening(at) if *at == server => PlaceOf::Lost(server),
        PlaceOf::On(at) if *at == server => PlaceOf::Lost(server),
        PlaceOf::Closing(at) if *at == server => PlaceOf::Lost(server),
        _ => *place,
    }
}

// The regions at the server are Lost.
fn lose_regions(map: &mut RegionMap, server: ServerId)
    ensures { AreNumbered map.old.regions → map.new ≡ all_lost server map.old }
{
    for at in 0..map.regions().len() {
        let region = &map.regions()[at];
        let number = region.number;
        let place = after_death(server, &region.place);
        map.set_place(number, place);
    }
}

/// A live server dies. What is pending at it stays so until its log is sealed; the tickets of puts among that are
/// doubtful, and its regions are Lost. No store is called: the regions' records say at which server they are, which stays.
pub fn crash(core: &mut ClusterCore, server: ServerId) -> Result<Reply, CoreError>
    ensures does { (way : Route) (c : Contents) (m : Machine) → Reached way m → is_in way core.old.own ≡ true → Stands core.old.own c core.old (of core.old.own m)
        → Answers way core.old.own (event.Crash core.old.own server) m c core.old c core.new result }
    ensures calm { IfOk result (λ reply. is_calm reply ≡ true) }
{
    let at = match live_place(core, server) {
        Ok(at) => at,
        Err(why) => return Ok(Reply::Refused(why)),
    };
    let doubtful = die(&mut core.stations, at);
    lose_regions(&mut core.map, server);
    Ok(Reply::Crashed { doubtful })
}
