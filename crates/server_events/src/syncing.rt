// A sync: what is pending at a server is committed.
ghost use Rattle.std.specs.Prelude.{◌≡◌, ◌<◌, true, Some, IfOk, MatchResult, length};
ghost use Rattle.rep_types.specs.declared.event.Event.TheVariants as event;
ghost use Rattle.rep_vault.specs.Contents.{Contents};
ghost use Rattle.rep_model.specs.State.{Route, of};
ghost use Rattle.rep_model.specs.Words.{is_in};
ghost use Rattle.rep_model.specs.Path.{refusal_of};
ghost use Rattle.rep_model.specs.LogEvents.{sync_plan};
ghost use Rattle.rep_model.specs.declared.machine.Machine.{Machine};
ghost use Rattle.cluster_core.specs.Lookups.{ServersStand};
ghost use Rattle.cluster_core.specs.Stands.{Stands};
ghost use Rattle.cluster_core.specs.Does.{Reached, Standing, Answers, FaultTold, Counts};
ghost use Rattle.server_events.specs.Ready.{MaySync};

use crate::keeping::station_here;
use cluster_core::{ClusterCore, CommitError, CoreError, commit, station_at};
use region_server::Committed;
use rep_types::{Call, Refusal, Reply, ServerId};
use rep_vault::Vault;
use std::alloc::Global;

// The place of the server's station, or what speaks against a sync.
fn sync_place(core: &ClusterCore, server: ServerId) -> Result<usize, Refusal>
    ensures within { IfOk result (λ at. at < length core.now.stations) }
    ensures state { (c : Contents) (m : Machine) → ServersStand c (of core.now.own m) core.now.stations
        → MatchResult result (λ at. MaySync c (of core.now.own m) core.now.stations server at) (λ why. refusal_of (sync_plan core.now.own server m) ≡ Some why) }
{
    let Some(at) = station_at(&core.stations, server) else {
        return Err(Refusal::NoServer);
    };
    let station = station_here(&core.stations, at);
    if !station.live {
        return Err(Refusal::Dead { server });
    }
    let log = station.host.log();
    if log.is_broken() {
        return Err(Refusal::Broken { log: log.number() });
    }
    Ok(at)
}

/// Commits what is pending at a live server whose log isn't broken, by one call of the store. A call that fails leaves the
/// log broken, and all pending.
pub fn sync<V: Vault>(
    core: &mut ClusterCore,
    alloc: Global,
    own: &mut V,
    server: ServerId,
) -> Result<Reply, CoreError>
    requires { Standing core.old.own (V.contents own.old) core.old }
    ensures does { (way : Route) (m : Machine) → Reached way m → is_in way core.old.own ≡ true → Stands core.old.own (V.contents own.old) core.old (of core.old.own m)
        → Answers way core.old.own (event.Sync core.old.own server) m (V.contents own.old) core.old (V.contents own.new) core.new result }
    ensures counts { Counts (V.tally own.old) (V.tally own.new) }
    ensures told { IfOk result (λ reply. FaultTold core.old.own reply (V.tally own.old) (V.tally own.new)) }
{
    let at = match sync_place(core, server) {
        Ok(at) => at,
        Err(why) => return Ok(Reply::Refused(why)),
    };
    let store = core.own;
    match commit(core, alloc, own, at) {
        Ok(Committed { entries, tickets }) => Ok(Reply::Synced {
            commits: entries.len() as u64,
            acks: tickets,
        }),
        Err(CommitError::StoreFault { count }) => Ok(Reply::StoreFault {
            store,
            call: Call::Sync,
            count,
        }),
        Err(CommitError::Memory { changed }) => Err(CoreError::Memory { changed }),
    }
}
