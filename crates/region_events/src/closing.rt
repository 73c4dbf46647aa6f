// Regions that begin to close, which no store is told.
ghost use Rattle.std.specs.Prelude.{◌≡◌, Some, true, IfOk, IfErr};
ghost use Rattle.rep_types.specs.declared.event.Event.TheVariants as event;
ghost use Rattle.rep_vault.specs.Contents.{Contents};
ghost use Rattle.rep_model.specs.Calm.{is_calm};
ghost use Rattle.rep_model.specs.RegionEvents.{close_begin_plan};
ghost use Rattle.rep_model.specs.Path.{refusal_of};
ghost use Rattle.rep_model.specs.State.{Route, of};
ghost use Rattle.rep_model.specs.declared.machine.Machine.{Machine};
ghost use Rattle.cluster_core.specs.Memory.{map_of};
ghost use Rattle.cluster_core.specs.Stands.{Stands};
ghost use Rattle.cluster_core.specs.Does.{Reached, Answers};
ghost use Rattle.region_events.specs.Closing.{IsOn};

use cluster_core::{ClusterCore, CoreError, on_at};
use rep_types::{PlaceOf, Refusal, RegionId, Reply, ServerId};

// The server that the region is On, or why it doesn't begin to close.
fn server_of(core: &ClusterCore, number: RegionId) -> Result<ServerId, Refusal>
    ensures on { IfOk result (λ server. IsOn core.now.map number server) }
    ensures refused { (m : Machine) → core.now.map ≡ map_of (of core.now.own m)
        → IfErr result (λ why. refusal_of (close_begin_plan core.now.own number m) ≡ Some why) }
{
    let have = match core.map.place(number) {
        Some(have) => have,
        None => return Err(Refusal::NoRegion),
    };
    match on_at(&have) {
        Some(server) => Ok(server),
        None => Err(Refusal::WrongPlace { have }),
    }
}

/// A region that is On a server begins to close there. No store is called: the region's record says where it is, which
/// stays.
pub fn close_begin(core: &mut ClusterCore, region: RegionId) -> Result<Reply, CoreError>
    ensures does { (way : Route) (c : Contents) (m : Machine) → Reached way m → Stands core.old.own c core.old (of core.old.own m)
        → Answers way core.old.own (event.CloseBegin core.old.own region) m c core.old c core.new result }
    ensures calm { IfOk result (λ reply. is_calm reply ≡ true) }
{
    let server = match server_of(core, region) {
        Ok(server) => server,
        Err(why) => return Ok(Reply::Refused(why)),
    };
    core.map.set_place(region, PlaceOf::Closing(server));
    Ok(Reply::Done)
}
