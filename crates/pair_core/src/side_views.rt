// What is seen of the whole.
ghost use Rattle.std.specs.Prelude.{◌≡◌, ◌+◌, ◌++◌, ◌∷◌, ◌<◌, [], true, filter, IfOk, OnOk};
ghost use Rattle.rep_vault.specs.Contents.{Contents};
ghost use Rattle.rep_model.specs.State.{Route, of};
ghost use Rattle.rep_model.specs.Words.{is_in};
ghost use Rattle.rep_model.specs.declared.machine.Machine.{Machine};
ghost use Rattle.cluster_core.specs.Does.{Reached};
ghost use Rattle.cluster_core.specs.Lines.{lives};
ghost use Rattle.cluster_core.specs.Stands.{Stands};
ghost use Rattle.pair_core.specs.InMemory.{kept_total, live_stations, core_view};
ghost use Rattle.pair_core.specs.Views.{side_view};

use cluster_core::{ClusterCore, Shelf, Station, is_live};
use rep_types::{Items, Memory, ServerId, ServerSet, SideLine, SyncState};
use std::alloc::Global;

// The commits of all servers; Memory where they are more than a number of 64 bits.
fn kept_total(shelves: &Items<Shelf>) -> Result<u64, Memory>
    ensures { IfOk result (λ total. total ≡ kept_total shelves.now) }
{
    let mut total: u64 = 0;
    for shelf in shelves.as_slice() {
        total = total.checked_add(shelf.kept.len() as u64).ok_or(Memory)?;
    }
    Ok(total)
}

fn numbered(at: u32) -> ServerId
    requires { at < 64 }
    ensures { result ≡ at + 1 }
{
    let Some(server) = ServerId::new(at + 1) else {
        unreachable!()
    };
    server
}

// The server goes behind these if it lives.
fn add_live(stations: &Items<Station>, server: ServerId, live: &mut ServerSet) -> Result<(), Memory>
    ensures { OnOk result (live.new ≡ live.old ++ filter (λ s. lives s stations.now) (server ∷ [])) }
{
    if is_live(stations, server) {
        live.push(server)
    } else {
        Ok(())
    }
}

fn live_stations(alloc: Global, stations: &Items<Station>) -> Result<ServerSet, Memory>
    ensures { IfOk result (λ live. live ≡ live_stations stations.now) }
{
    let mut live = Items::new(alloc);
    for at in 0..64u32 {
        add_live(stations, numbered(at), &mut live)?;
    }
    Ok(live)
}

fn core_view(core: &ClusterCore, alloc: Global) -> Result<SideLine, Memory>
    ensures { IfOk result (λ view. view ≡ core_view core.now) }
{
    Ok(SideLine {
        commits: kept_total(&core.index.shelves)?,
        live: live_stations(alloc, &core.stations)?,
        sync: SyncState::Absent,
    })
}

/// The cluster in the status line: how many commits it has, its live servers by number, and the
/// state of its synchronous peer, which is Absent. It costs a search for each of 64 servers.
pub fn side_line(core: &ClusterCore, alloc: Global) -> Result<SideLine, Memory>
    ensures seen { (way : Route) (c : Contents) (m : Machine) → Reached way m → is_in way core.now.own ≡ true
        → Stands core.now.own c core.now (of core.now.own m)
        → IfOk result (λ line. line ≡ side_view (of core.now.own m)) }
{
    core_view(core, alloc)
}
