// A seal: a dead server's log is sealed.
ghost use Rattle.std.specs.Prelude.{◌≡◌, ◌<◌, true, Some, IfOk, MatchResult, length};
ghost use Rattle.rep_types.specs.declared.event.Event.TheVariants as event;
ghost use Rattle.rep_types.specs.declared.reply.Reply.{Reply};
ghost use Rattle.rep_vault.specs.Contents.{Contents};
ghost use Rattle.rep_model.specs.State.{Route, of};
ghost use Rattle.rep_model.specs.Words.{is_in};
ghost use Rattle.rep_model.specs.Path.{refusal_of};
ghost use Rattle.rep_model.specs.LogEvents.{seal_plan};
ghost use Rattle.rep_model.specs.declared.machine.Machine.{Machine};
ghost use Rattle.cluster_core.specs.Lookups.{ServersStand};
ghost use Rattle.cluster_core.specs.Stands.{Stands};
ghost use Rattle.cluster_core.specs.Does.{Reached, Standing, Answers, FaultTold, Counts};
ghost use Rattle.server_events.specs.Ready.{MaySeal};

use crate::ending::seal_log;
use crate::keeping::station_here;
use cluster_core::{ClusterCore, CommitError, CoreError, station_at};
use rep_types::{Call, Refusal, Reply, ServerId};
use rep_vault::Vault;
use std::alloc::Global;

// The place of the server's station, or what speaks against a seal.
fn seal_place(core: &ClusterCore, server: ServerId) -> Result<usize, Refusal>
    ensures within { IfOk result (λ at. at < length core.now.stations) }
    ensures state { (c : Contents) (m : Machine) → ServersStand c (of core.now.own m) core.now.stations
        → MatchResult result (λ at. MaySeal c (of core.now.own m) core.now.stations server at) (λ why. (said : Reply) → refusal_of (seal_plan core.now.own server said m) ≡ Some why) }
{
    let Some(at) = station_at(&core.stations, server) else {
        return Err(Refusal::NoServer);
    };
    let station = station_here(&core.stations, at);
    if station.live {
        return Err(Refusal::Alive { server });
    }
    if station.sealed {
        return Err(Refusal::Sealed);
    }
    Ok(at)
}

/// Seals a dead server's log, by one call of the store. The first pending entries, whose frames the store kept whole, are
/// committed, and the others are dropped: the server is sealed, and has nothing pending. No ticket is told, since the crash
/// made them doubtful. A call that fails leaves all as it was.
pub fn seal<V: Vault>(
    core: &mut ClusterCore,
    alloc: Global,
    own: &mut V,
    server: ServerId,
) -> Result<Reply, CoreError>
    requires { Standing core.old.own (V.contents own.old) core.old }
    ensures does { (way : Route) (m : Machine) → Reached way m → is_in way core.old.own ≡ true → Stands core.old.own (V.contents own.old) core.old (of core.old.own m)
        → Answers way core.old.own (event.Seal core.old.own server) m (V.contents own.old) core.old (V.contents own.new) core.new result }
    ensures counts { Counts (V.tally own.old) (V.tally own.new) }
    ensures told { IfOk result (λ reply. FaultTold core.old.own reply (V.tally own.old) (V.tally own.new)) }
{
    let at = match seal_place(core, server) {
        Ok(at) => at,
        Err(why) => return Ok(Reply::Refused(why)),
    };
    let store = core.own;
    match seal_log(core, alloc, own, at) {
        Ok(kept) => Ok(Reply::Sealed {
            commits: kept.entries.len() as u64,
            dropped: kept.dropped as u64,
        }),
        Err(CommitError::StoreFault { count }) => Ok(Reply::StoreFault {
            store,
            call: Call::Seal,
            count,
        }),
        Err(CommitError::Memory { changed }) => Err(CoreError::Memory { changed }),
    }
}
