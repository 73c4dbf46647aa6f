// Closings that end: the marker is committed, and then the region's record is put, which says that the region is Off.
ghost use Rattle.std.specs.Prelude.{◌≡◌, true, IsSome, IfOk};
ghost use Rattle.rep_types.specs.declared.event.Event.TheVariants as event;
ghost use Rattle.region_meta.specs.Regions.{region_of};
ghost use Rattle.rep_model.specs.State.{Route, of};
ghost use Rattle.rep_model.specs.Words.{is_in};
ghost use Rattle.rep_model.specs.declared.machine.Machine.{Machine};
ghost use Rattle.cluster_core.specs.Stands.{Stands};
ghost use Rattle.cluster_core.specs.Does.{Standing, Reached, Answers, Counts, FaultTold};
ghost use Rattle.region_events.specs.Effects.{IsOffRecord};

use crate::markers::{Ending, marker, marking_at, unmarked};
use cluster_core::{
    ClusterCore, CoreError, Stored, commit_entry, current_log, put_records, region_change,
};
use rep_types::{Call, Memory, PlaceOf, RegionId, Reply};
use rep_vault::{Change, Vault};
use std::alloc::Global;

// The record of the region once it is Off.
fn off_record(core: &ClusterCore, alloc: Global, number: RegionId) -> Result<Vec<Change>, Memory>
    requires { IsSome (region_of number core.now.map) }
    ensures { IfOk result (λ changes. IsOffRecord core.now.map number changes.items) }
{
    let Some(found) = core.map.region(number) else {
        unreachable!()
    };
    let mut changes = Vec::new(alloc);
    changes.push(region_change(alloc, found, &PlaceOf::Off)?)?;
    Ok(changes)
}

/// A closing region's marker is appended to its server's log and committed with all that is pending there. Then the region's
/// record is put, and the region is Off. An append or a sync that fails leaves the log broken and the marker pending; where
/// the put fails the marker stays committed. Either way the region still closes.
pub fn close_end<V: Vault>(
    core: &mut ClusterCore,
    alloc: Global,
    own: &mut V,
    region: RegionId,
) -> Result<Reply, CoreError>
    requires { Standing core.old.own (V.contents own.old) core.old }
    ensures does { (way : Route) (m : Machine) → Reached way m → is_in way core.old.own ≡ true → Stands core.old.own (V.contents own.old) core.old (of core.old.own m)
        → Answers way core.old.own (event.CloseEnd core.old.own region) m (V.contents own.old) core.old (V.contents own.new) core.new result }
    ensures counts { Counts (V.tally own.old) (V.tally own.new) }
    ensures told { IfOk result (λ reply. FaultTold core.old.own reply (V.tally own.old) (V.tally own.new)) }
{
    let at = match marking_at(core, region, Ending::Closes) {
        Ok(at) => at,
        Err(why) => return Ok(Reply::Refused(why)),
    };
    let Some(entry) = marker(core, region, Ending::Closes) else {
        return Err(CoreError::Memory { changed: false });
    };
    let Ok(changes) = off_record(core, alloc, region) else {
        return Err(CoreError::Memory { changed: false });
    };
    let store = core.own;
    let seq = entry.seq;
    let log = current_log(&core.stations, at);
    let acks = match commit_entry(core, alloc, own, at, entry) {
        Ok(acks) => acks,
        Err(why) => return unmarked(store, &log, why),
    };
    match put_records(own, &changes) {
        Stored::Done => {
            core.map.set_place(region, PlaceOf::Off);
            Ok(Reply::Marked { seq, acks })
        }
        Stored::Fault(count) => Ok(Reply::StoreFault {
            store,
            call: Call::Put,
            count,
        }),
        Stored::NoMemory => Err(CoreError::Memory { changed: true }),
    }
}
