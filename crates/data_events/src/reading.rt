ghost use Rattle.std.specs.Prelude.{◌≡◌, true, find, IfOk};
ghost use Rattle.std.specs.Option.{option_copied};
ghost use Rattle.rep_types.specs.declared.event.Event.TheVariants as event;
ghost use Rattle.rep_vault.specs.Contents.{Contents};
ghost use Rattle.rep_model.specs.Calm.{is_calm};
ghost use Rattle.rep_model.specs.State.{Route, of};
ghost use Rattle.rep_model.specs.declared.machine.Machine.{Machine};
ghost use Rattle.cluster_core.specs.Stands.{Stands};
ghost use Rattle.cluster_core.specs.Does.{Reached, Answers};
ghost use Rattle.data_events.specs.Cells.{is_cells, shown};

use cluster_core::{ClusterCore, CoreError, TableCells, located_number, seat_of};
use rep_types::{Items, Key, Memory, Name, Refusal, Reply, Views};
use std::alloc::Global;

fn find_cells<'a>(cells: &'a Items<TableCells>, table: &Name) -> Option<&'a TableCells>
    ensures { option_copied result ≡ find (is_cells table.now) cells.now }
{
    cells.as_slice().iter().find(|kept| kept.name == *table)
}

fn shown(views: Result<Views, Memory>) -> Result<Reply, CoreError>
    ensures value { result ≡ shown views }
    ensures calm { IfOk result (λ reply. is_calm reply ≡ true) }
{
    match views {
        Ok(cells) => Ok(Reply::Shown { cells }),
        Err(Memory) => Err(CoreError::Memory { changed: false }),
    }
}

/// What a table shows. It costs the table's columns.
pub fn show(alloc: Global, core: &ClusterCore, table: &Name) -> Result<Reply, CoreError>
    ensures does { (way : Route) (c : Contents) (m : Machine) → Reached way m → Stands core.now.own c core.now (of core.now.own m)
        → Answers way core.now.own (event.Show core.now.own table.now) m c core.now c core.now result }
    ensures calm { IfOk result (λ reply. is_calm reply ≡ true) }
{
    match find_cells(&core.index.cells, table) {
        None => Ok(Reply::Refused(Refusal::NoTable)),
        Some(kept) => shown(kept.store.scan(alloc)),
    }
}

/// What a row shows, where its region is On. It costs the row's columns, and the search for them.
pub fn get(alloc: Global, core: &ClusterCore, table: &Name, row: &Key) -> Result<Reply, CoreError>
    ensures does { (way : Route) (c : Contents) (m : Machine) → Reached way m → Stands core.now.own c core.now (of core.now.own m)
        → Answers way core.now.own (event.Get core.now.own table.now row.now) m c core.now c core.now result }
    ensures calm { IfOk result (λ reply. is_calm reply ≡ true) }
{
    match find_cells(&core.index.cells, table) {
        None => Ok(Reply::Refused(Refusal::NoTable)),
        Some(kept) => match seat_of(core, table, row) {
            None => Ok(Reply::Refused(Refusal::NotServing {
                region: located_number(&core.map, table, row),
            })),
            Some(_) => shown(kept.store.get(alloc, row)),
        },
    }
}
