// Markers of openings and closings, which are appended and synced at once.
ghost use Rattle.std.specs.Prelude.{◌≡◌, ◌<◌, true, Some, IfOk, IfSome, MatchResult, length};
ghost use Rattle.rep_types.specs.declared.event.Event.TheVariants as event;
ghost use Rattle.rep_vault.specs.Contents.{Contents};
ghost use Rattle.rep_model.specs.State.{Route, of};
ghost use Rattle.rep_model.specs.Words.{is_in};
ghost use Rattle.rep_model.specs.Places.{opens_at, closes_at};
ghost use Rattle.rep_model.specs.Path.{refusal_of};
ghost use Rattle.rep_model.specs.declared.machine.Machine.{Machine};
ghost use Rattle.cluster_core.specs.Stands.{Stands};
ghost use Rattle.cluster_core.specs.Does.{Standing, Reached, Answers, Counts, FaultTold};
ghost use Rattle.region_events.specs.Marks.{ends_at, kind_of, ending_plan, unmarked, HasMarking, IsMarker};

use cluster_core::{
    ClusterCore, CoreError, CurrentLog, EntryError, commit_entry, current_log, mark, next_id,
    region, station_at,
};
use rep_types::{Cluster, Entry, EntryKind, PlaceOf, Refusal, RegionId, Reply, ServerId};
use rep_vault::Vault;
use std::alloc::Global;

/// What ends with a marker: an opening or a closing.
#[derive(Clone, Copy)]
pub enum Ending {
    Opens,
    Closes,
}

fn opens_at(place: &PlaceOf) -> Option<ServerId>
    ensures { result ≡ opens_at place.now }
{
    match place {
        PlaceOf::Off => None,
        PlaceOf::Opening(server) => Some(*server),
        PlaceOf::On(_) => None,
        PlaceOf::Closing(_) => None,
        PlaceOf::Lost(_) => None,
        PlaceOf::Gone => None,
    }
}

fn closes_at(place: &PlaceOf) -> Option<ServerId>
    ensures { result ≡ closes_at place.now }
{
    match place {
        PlaceOf::Closing(server) => Some(*server),
        _ => None,
    }
}

// The server where a region of this place opens, or closes.
fn ends_at(ending: Ending, place: &PlaceOf) -> Option<ServerId>
    ensures { result ≡ ends_at ending place.now }
{
    match ending {
        Ending::Opens => opens_at(place),
        Ending::Closes => closes_at(place),
    }
}

fn kind_of(ending: Ending) -> EntryKind
    ensures { result ≡ kind_of ending }
{
    match ending {
        Ending::Opens => EntryKind::Opened,
        Ending::Closes => EntryKind::Closed,
    }
}

/// Where the region's marker goes: the place of its server's station. Or what speaks against it before the log does.
pub fn marking_at(core: &ClusterCore, number: RegionId, ending: Ending) -> Result<usize, Refusal>
    ensures within { IfOk result (λ at. at < length core.now.stations) }
    ensures state { (m : Machine) (c : Contents) → Stands core.now.own c core.now (of core.now.own m)
        → MatchResult result (λ at. HasMarking (ends_at ending) core.now.own c core.now.stations number m at)
        (λ why. refusal_of (ending_plan ending core.now.own number m) ≡ Some why) }
{
    let found = match region(&core.map, number) {
        Some(found) => found,
        None => return Err(Refusal::NoRegion),
    };
    let server = match ends_at(ending, &found.place) {
        Some(server) => server,
        None => return Err(Refusal::WrongPlace { have: found.place }),
    };
    match station_at(&core.stations, server) {
        Some(at) => Ok(at),
        None => Err(Refusal::WrongPlace { have: found.place }),
    }
}

/// The region's marker; none where the sequence id is no number of 64 bits.
pub fn marker(core: &ClusterCore, region: RegionId, ending: Ending) -> Option<Entry>
    ensures { IfSome result (λ entry. IsMarker core.now.own core.now.index region (kind_of ending) entry) }
{
    let seq = next_id(&core.index, region)?;
    Some(Entry {
        region,
        seq,
        kind: kind_of(ending),
        marks: mark(core.own),
        origin: None,
    })
}

/// What an event answers whose marker wasn't committed.
pub fn unmarked(store: Cluster, log: &CurrentLog, why: EntryError) -> Result<Reply, CoreError>
    ensures { result ≡ unmarked store log.now.server log.now.number why }
{
    match why {
        EntryError::Broken => Ok(Reply::Refused(Refusal::Broken { log: log.number })),
        EntryError::NeedRoll { used, need } => Ok(Reply::Refused(Refusal::NeedRoll {
            server: log.server,
            used,
            need,
        })),
        EntryError::StoreFault { call, count } => Ok(Reply::StoreFault { store, call, count }),
        EntryError::Memory { changed } => Err(CoreError::Memory { changed }),
    }
}

/// An opening region's marker is appended to its server's log and committed with all that is pending there; then the region
/// is On. A call that fails leaves the log broken and the marker pending, and the region still opens.
pub fn open_end<V: Vault>(
    core: &mut ClusterCore,
    alloc: Global,
    own: &mut V,
    region: RegionId,
) -> Result<Reply, CoreError>
    requires { Standing core.old.own (V.contents own.old) core.old }
    ensures does { (way : Route) (m : Machine) → Reached way m → is_in way core.old.own ≡ true → Stands core.old.own (V.contents own.old) core.old (of core.old.own m)
        → Answers way core.old.own (event.OpenEnd core.old.own region) m (V.contents own.old) core.old (V.contents own.new) core.new result }
    ensures counts { Counts (V.tally own.old) (V.tally own.new) }
    ensures told { IfOk result (λ reply. FaultTold core.old.own reply (V.tally own.old) (V.tally own.new)) }
{
    let at = match marking_at(core, region, Ending::Opens) {
        Ok(at) => at,
        Err(why) => return Ok(Reply::Refused(why)),
    };
    let Some(entry) = marker(core, region, Ending::Opens) else {
        return Err(CoreError::Memory { changed: false });
    };
    let store = core.own;
    let seq = entry.seq;
    let log = current_log(&core.stations, at);
    match commit_entry(core, alloc, own, at, entry) {
        Ok(acks) => {
            core.map.set_place(region, PlaceOf::On(log.server));
            Ok(Reply::Marked { seq, acks })
        }
        Err(why) => unmarked(store, &log, why),
    }
}
