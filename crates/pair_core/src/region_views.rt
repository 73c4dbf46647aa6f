// What is seen of a region.
ghost use Rattle.std.specs.Prelude.{◌≡◌, ℕ, ◌<◌, true, None, length, IfOk};
ghost use Rattle.rep_vault.specs.Contents.{Contents};
ghost use Rattle.rep_model.specs.State.{Route, of};
ghost use Rattle.rep_model.specs.Words.{is_in};
ghost use Rattle.rep_model.specs.declared.machine.Machine.{Machine};
ghost use Rattle.cluster_core.specs.Does.{Reached};
ghost use Rattle.cluster_core.specs.Stands.{Stands};
ghost use Rattle.pair_core.specs.InMemory.{traced_view};
ghost use Rattle.pair_core.specs.Views.{region_seen};

use cluster_core::{ClusterCore, Trace, region, trace};
use region_meta::Region;
use rep_types::{Cluster, Duplicate, Items, Key, Memory, RegionId, RegionLine};
use std::alloc::Global;

fn copy_bound(alloc: Global, bound: &Option<Key>) -> Result<Option<Key>, Memory>
    ensures { IfOk result (λ copy. copy ≡ bound.now) }
{
    match bound {
        None => Ok(None),
        Some(key) => Ok(Some(key.copy(alloc)?)),
    }
}

fn traced_view(
    alloc: Global,
    own: Cluster,
    region: &Region,
    trace: &Trace,
) -> Result<RegionLine, Memory>
    ensures { IfOk result (λ view. view ≡ traced_view own region.now trace.now) }
{
    let barriers = &trace.barriers;
    Ok(RegionLine {
        cluster: own,
        region: region.number,
        table: region.table.copy(alloc)?,
        low: copy_bound(alloc, &region.low)?,
        high: copy_bound(alloc, &region.high)?,
        place: region.place,
        barriers: Items::from_slice(alloc, barriers.barriers())?,
        final_barrier: barriers.final_barrier(),
        parents: Items::from_slice(alloc, region.parents.as_slice())?,
    })
}

/// A region as it is printed, with its barriers; a final one where it is Gone. None where there is
/// no region of this number. It costs its barriers, its bounds and its table's name.
pub fn region_line(
    core: &ClusterCore,
    alloc: Global,
    number: RegionId,
) -> Result<Option<RegionLine>, Memory>
    ensures seen { (way : Route) (c : Contents) (m : Machine) → Reached way m → is_in way core.now.own ≡ true
        → Stands core.now.own c core.now (of core.now.own m)
        → IfOk result (λ line. line ≡ region_seen core.now.own number (of core.now.own m)) }
{
    match region(&core.map, number) {
        None => Ok(None),
        Some(found) => match trace(&core.index, number) {
            None => Ok(None),
            Some(trace) => Ok(Some(traced_view(alloc, core.own, found, trace)?)),
        },
    }
}

/// How many regions there are, those that are Gone too: they have the numbers from 1 on.
pub fn region_count(core: &ClusterCore) -> usize
    ensures count { (way : Route) (c : Contents) (m : Machine) → Reached way m → is_in way core.now.own ≡ true
        → Stands core.now.own c core.now (of core.now.own m)
        → result ≡ length (of core.now.own m).regions }
    ensures above { (way : Route) (c : Contents) (m : Machine) → Reached way m → is_in way core.now.own ≡ true
        → Stands core.now.own c core.now (of core.now.own m)
        → (r : ℕ) → result < r → region_seen core.now.own r (of core.now.own m) ≡ None }
{
    core.map.regions().len()
}
