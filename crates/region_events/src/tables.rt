ghost use Rattle.std.specs.Prelude.{◌≡◌, ◌+◌, ◌<◌, true, List, [], ◌∷◌, None, IfOk, OnOk, length, map};
ghost use Rattle.rep_types.specs.declared.event.Event.TheVariants as event;
ghost use Rattle.rep_types.specs.declared.table.Family.{Family};
ghost use Rattle.rep_types.specs.declared.state.PlaceOf.TheVariants as place;
ghost use Rattle.rep_model.specs.RegionEvents.{table_plan};
ghost use Rattle.rep_model.specs.Path.{refusal_of};
ghost use Rattle.rep_model.specs.State.{Route, of};
ghost use Rattle.rep_model.specs.Words.{is_in};
ghost use Rattle.rep_model.specs.declared.machine.Machine.{Machine};
ghost use Rattle.cluster_core.specs.Texts.{OfTable, OfRegion, OfBarriers, family_text, list_text, region_text, barriers_text};
ghost use Rattle.cluster_core.specs.Changes.{setting};
ghost use Rattle.cluster_core.specs.Memory.{map_of, IndexStands};
ghost use Rattle.cluster_core.specs.Stands.{Stands};
ghost use Rattle.cluster_core.specs.Does.{Standing, Reached, Answers, Counts, FaultTold};
ghost use Rattle.region_events.specs.Effects.{with_table};

use cluster_core::{
    ClusterCore, CoreError, Stored, TableCells, Trace, barriers_change, families, put_records,
    region_change, table_change,
};
use region_barriers::{Barriers, Parents};
use region_meta::Region;
use rep_types::{
    Call, Duplicate, Families, Items, Memory, Name, PlaceOf, Refusal, RegionId, Reply,
};
use rep_vault::{Change, Vault};
use std::alloc::Global;
use table_cells::CellStore;

// Why the table isn't made. Where it is, there is a number for its region.
fn refusal(core: &ClusterCore, name: &Name) -> Option<Refusal>
    ensures first { (families : List Family) (m : Machine) → core.now.map ≡ map_of (of core.now.own m) → IndexStands core.now.index (of core.now.own m)
        → result ≡ refusal_of (table_plan core.now.own name.now families m) }
    ensures room { result ≡ None → length core.now.index.traces < 4096 }
{
    match families(&core.map, name) {
        Some(_) => return Some(Refusal::Exists),
        None => {}
    }
    if core.index.traces.len() >= 4096 {
        return Some(Refusal::TooMany);
    }
    None
}

// The number of the next region.
fn next_region(core: &ClusterCore) -> RegionId
    requires { length core.now.index.traces < 4096 }
    ensures { result ≡ length core.now.index.traces + 1 }
{
    let count = core.index.traces.len() as u32;
    let Some(number) = RegionId::new(count + 1) else {
        unreachable!()
    };
    number
}

fn region_record(alloc: Global, number: RegionId, name: &Name) -> Result<Change, Memory>
    ensures { IfOk result (λ change. change ≡ setting (OfRegion number) (region_text name.now None None place.Off [])) }
{
    let region = Region {
        number,
        table: name.copy(alloc)?,
        low: None,
        high: None,
        parents: Items::new(alloc),
        generation: 0,
        place: PlaceOf::Off,
    };
    region_change(alloc, &region, &PlaceOf::Off)
}

// The records of a table, its first region and that region's barriers.
fn changes(
    alloc: Global,
    number: RegionId,
    name: &Name,
    families: &Families,
) -> Result<Vec<Change>, Memory>
    ensures { IfOk result (λ changes. changes.items ≡ setting (OfTable name.now) (list_text (map family_text families.now))
        ∷ setting (OfRegion number) (region_text name.now None None place.Off []) ∷ setting (OfBarriers number) (barriers_text [] 0) ∷ []) }
{
    let mut changes = Vec::new(alloc);
    changes.push(table_change(alloc, name, families.as_slice())?)?;
    changes.push(region_record(alloc, number, name)?)?;
    changes.push(barriers_change(alloc, number, &[], 0)?)?;
    Ok(changes)
}

// Puts the table and its region into memory.
fn add(core: &mut ClusterCore, alloc: Global, name: Name, families: Families) -> Result<(), Memory>
    ensures { OnOk result (core.new ≡ with_table name families core.old) }
{
    let cells = TableCells {
        name: name.copy(alloc)?,
        store: CellStore::new(alloc),
    };
    if core.map.add_table(alloc, name, families).is_err() {
        return Err(Memory);
    }
    core.index.traces.push(Trace {
        commits: 0,
        pending: 0,
        flushed: 0,
        barriers: Barriers::new(alloc, Parents::new(alloc)),
    })?;
    core.index.cells.push(cells)
}

/// Makes a table, and its first region for all keys, which is Off.
pub fn table<V: Vault>(
    core: &mut ClusterCore,
    alloc: Global,
    own: &mut V,
    name: Name,
    families: Families,
) -> Result<Reply, CoreError>
    requires { Standing core.old.own (V.contents own.old) core.old }
    ensures does { (way : Route) (m : Machine) → Reached way m → is_in way core.old.own ≡ true → Stands core.old.own (V.contents own.old) core.old (of core.old.own m)
        → Answers way core.old.own (event.Table core.old.own name families) m (V.contents own.old) core.old (V.contents own.new) core.new result }
    ensures counts { Counts (V.tally own.old) (V.tally own.new) }
    ensures told { IfOk result (λ reply. FaultTold core.old.own reply (V.tally own.old) (V.tally own.new)) }
{
    match refusal(core, &name) {
        Some(why) => return Ok(Reply::Refused(why)),
        None => {}
    }
    let region = next_region(core);
    let Ok(changes) = changes(alloc, region, &name, &families) else {
        return Err(CoreError::Memory { changed: false });
    };
    match put_records(own, &changes) {
        Stored::Done => match add(core, alloc, name, families) {
            Ok(()) => Ok(Reply::Made { region }),
            Err(_) => Err(CoreError::Memory { changed: true }),
        },
        Stored::Fault(count) => Ok(Reply::StoreFault {
            store: core.own,
            call: Call::Put,
            count,
        }),
        Stored::NoMemory => Err(CoreError::Memory { changed: false }),
    }
}
