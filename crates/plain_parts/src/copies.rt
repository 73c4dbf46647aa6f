// How tables, regions and commits are copied.
ghost use Rattle.std.specs.Prelude.{◌≡◌, ◌++◌, IfOk, OnOk};

use rep_model::{Commit, Region, Table};
use rep_types::{Duplicate, Items, Key, Memory};
use std::alloc::Global;

pub fn copy_bound(alloc: Global, bound: &Option<Key>) -> Result<Option<Key>, Memory>
    ensures { IfOk result (λ copy. copy ≡ bound.now) }
{
    match bound {
        None => Ok(None),
        Some(key) => Ok(Some(key.copy(alloc)?)),
    }
}

pub fn copy_table(alloc: Global, table: &Table) -> Result<Table, Memory>
    ensures { IfOk result (λ copy. copy ≡ table.now) }
{
    Ok(Table {
        name: table.name.copy(alloc)?,
        families: table.families.copy(alloc)?,
    })
}

pub fn copy_region(alloc: Global, region: &Region) -> Result<Region, Memory>
    ensures { IfOk result (λ copy. copy ≡ region.now) }
{
    Ok(Region {
        number: region.number,
        table: copy_table(alloc, &region.table)?,
        low: copy_bound(alloc, &region.low)?,
        high: copy_bound(alloc, &region.high)?,
        parents: Items::from_slice(alloc, region.parents.as_slice())?,
        generation: region.generation,
    })
}

pub fn copy_commit(alloc: Global, commit: &Commit) -> Result<Commit, Memory>
    ensures { IfOk result (λ copy. copy ≡ commit.now) }
{
    Ok(Commit {
        server: commit.server,
        log: commit.log,
        region: copy_region(alloc, &commit.region)?,
        seq: commit.seq,
        kind: commit.kind.copy(alloc)?,
        marks: commit.marks,
        origin: commit.origin,
    })
}

/// Copies of these commits go behind others.
pub fn add_commits(
    alloc: Global,
    list: &mut Items<Commit>,
    commits: &[Commit],
) -> Result<(), Memory>
    ensures { OnOk result (list.new ≡ list.old ++ commits.now) }
{
    for commit in commits {
        list.push(copy_commit(alloc, commit)?)?;
    }
    Ok(())
}
