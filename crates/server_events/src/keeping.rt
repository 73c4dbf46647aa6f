// A server's log is sealed, and what the store kept of its pending entries is committed.
ghost use Rattle.std.specs.Prelude.{◌≡◌, ◌<◌, ◌^◌, ℕ, IfOk, false, length, slice_get, slice_set, Some, Err};
ghost use Rattle.rep_types.specs.declared.state.Call.TheVariants.{Seal};
ghost use Rattle.wal_roll.specs.Log.{Log, wal, log_name};
ghost use Rattle.wal_roll.specs.Steps.{OnlyFile};
ghost use Rattle.wal_roll.specs.Blamed.{Blamed, IsFault};
ghost use Rattle.region_server.specs.Host.{HostValue, IsHost, Stands as HostStands};
ghost use Rattle.region_server.specs.Calls.{Seals};
ghost use Rattle.rep_model.specs.declared.machine.Side.{Side};
ghost use Rattle.cluster_core.specs.declared.parts.Station.{Station};
ghost use Rattle.cluster_core.specs.declared.committing.CommitError.TheVariants as error;
ghost use Rattle.cluster_core.specs.Orderly.{IsOrderly};
ghost use Rattle.cluster_core.specs.Lookups.{HasStation};
ghost use Rattle.cluster_core.specs.Stands.{Stands};
ghost use Rattle.cluster_core.specs.Does.{Counts};
ghost use Rattle.server_events.specs.Kept.{IsEmptied, Keeps};

use cluster_core::{ClusterCore, CommitError, Station, log_fits};
use region_server::Kept;
use rep_types::Items;
use rep_vault::Vault;
use std::alloc::Global;
use wal_roll::LogError;

/// The station at this place.
pub fn station_here(stations: &Items<Station>, at: usize) -> &Station
    requires { at < length stations.now }
    ensures { (st : Station) → slice_get stations.now at ≡ Some st → result.now ≡ st }
{
    &stations.as_slice()[at]
}

// Seals the log of the station at this place.
fn seal_at<V: Vault>(
    stations: &mut Items<Station>,
    own: &mut V,
    at: usize,
) -> Result<Kept, LogError>
    requires within { at < length stations.old }
    requires stands { (st : Station) → slice_get stations.old at ≡ Some st → HostStands (V.contents own.old) st.host }
    ensures does { (st : Station) (log : Log) → slice_get stations.old at ≡ Some st → IsHost (V.contents own.old) st.host log
        → (h : HostValue) × (stations.new ≡ slice_set stations.old at (record st { host = h })) × Seals log st.host (V.contents own.old) h (V.contents own.new) result }
    ensures frame { (st : Station) → slice_get stations.old at ≡ Some st
        → OnlyFile wal (log_name st.host.log.server st.host.log.number) (V.contents own.old) (V.contents own.new) }
    ensures server { (st : Station) → slice_get stations.old at ≡ Some st → st.host.log.server < 2 ^ 32 }
    ensures number { (st : Station) → slice_get stations.old at ≡ Some st → st.host.log.number < 2 ^ 32 }
    ensures blamed { Blamed (V.tally own.old) (V.tally own.new) result }
{
    let station = stations.at_mut(at);
    log_fits(&station.host);
    station.host.seal(own)
}

/// Seals the log of the station at this place, by one call of the store. Of the pending entries the first ones, which the
/// store kept, are committed, and the others are gone; the tickets stay. A call that fails leaves all as it was.
pub fn seal_pending<V: Vault>(
    core: &mut ClusterCore,
    alloc: Global,
    own: &mut V,
    at: usize,
) -> Result<Kept, CommitError>
    requires within { at < length core.old.stations }
    requires stands { (st : Station) → slice_get core.old.stations at ≡ Some st → HostStands (V.contents own.old) st.host }
    ensures does { (side : Side) (s : ℕ) (here : HasStation (V.contents own.old) side core.old.stations s at) → here.server.sealed ≡ false → IsOrderly side
        → Stands core.old.own (V.contents own.old) core.old side
        → Keeps (V.contents own.old) core.old side here.server here.station at (V.contents own.new) core.new result }
    ensures emptied { IfOk result (λ kept. IsEmptied core.old.stations at core.new.stations) }
    ensures counts { Counts (V.tally own.old) (V.tally own.new) }
    ensures told { (count : ℕ) → result ≡ Err (error.StoreFault count) → IsFault Seal count (V.tally own.old) (V.tally own.new) }
{
    let station = station_here(&core.stations, at);
    let server = station.host.server();
    let log = station.host.log().number();
    let from = station.host.log().synced();
    match seal_at(&mut core.stations, own, at) {
        Ok(kept) => {
            match core
                .index
                .absorb(alloc, server, log, from, kept.entries.as_slice())
            {
                Ok(()) => {
                    core.index.forget(&core.map, server);
                    Ok(kept)
                }
                Err(_) => Err(CommitError::Memory { changed: true }),
            }
        }
        Err(LogError::StoreFault { count, .. }) => Err(CommitError::StoreFault { count }),
        Err(LogError::Memory) => Err(CommitError::Memory { changed: false }),
        Err(LogError::Broken) => unreachable!(),
        Err(LogError::NeedRoll { .. }) => unreachable!(),
    }
}
