// A region, and the regions that splits and merges make.
ghost use Rattle.std.specs.Prelude.{◌≡◌, ◌<◌, IfOk};
ghost use Rattle.region_meta.specs.Regions.{is_off, is_gone};
ghost use Rattle.region_meta.specs.Changes.{first_region, next_place, low_half, high_half, joined};

use rep_types::{Duplicate, Items, Key, Memory, Name, PlaceOf, RegionId};
use std::alloc::Global;

/// A region: the rows of a table from a low key on and below a high one, the regions that it came
/// from, in order, and where it is. A table's first region has generation 0, another one more than
/// the greatest of its parents.
#[derive(Drop)]
pub struct Region {
    pub number: RegionId,
    pub table: Name,
    pub low: Option<Key>,
    pub high: Option<Key>,
    pub parents: Items<RegionId>,
    pub generation: u32,
    pub place: PlaceOf,
}

pub fn is_off(place: &PlaceOf) -> bool
    ensures { result ≡ is_off place.now }
{
    match place {
        PlaceOf::Off => true,
        PlaceOf::Opening(_) => false,
        PlaceOf::On(_) => false,
        PlaceOf::Closing(_) => false,
        PlaceOf::Lost(_) => false,
        PlaceOf::Gone => false,
    }
}

fn is_gone(place: &PlaceOf) -> bool
    ensures { result ≡ is_gone place.now }
{
    match place {
        PlaceOf::Off => false,
        PlaceOf::Opening(_) => false,
        PlaceOf::On(_) => false,
        PlaceOf::Closing(_) => false,
        PlaceOf::Lost(_) => false,
        PlaceOf::Gone => true,
    }
}

pub fn next_place(have: &PlaceOf, next: &PlaceOf) -> PlaceOf
    ensures { result ≡ next_place have.now next.now }
{
    if is_gone(have) || is_gone(next) {
        *have
    } else {
        *next
    }
}

fn copy_bound(alloc: Global, bound: &Option<Key>) -> Result<Option<Key>, Memory>
    ensures { IfOk result (λ copy. copy ≡ bound.now) }
{
    match bound {
        None => Ok(None),
        Some(key) => Ok(Some(key.copy(alloc)?)),
    }
}

pub fn first_region(alloc: Global, number: RegionId, table: Name) -> Region
    ensures { result ≡ first_region number table }
{
    Region {
        number,
        table,
        low: None,
        high: None,
        parents: Items::new(alloc),
        generation: 0,
        place: PlaceOf::Off,
    }
}

pub fn low_half(
    alloc: Global,
    number: RegionId,
    key: &Key,
    parent: &Region,
) -> Result<Region, Memory>
    requires { parent.now.generation < 4096 }
    ensures { IfOk result (λ half. half ≡ low_half number key.now parent.now) }
{
    Ok(Region {
        number,
        table: parent.table.copy(alloc)?,
        low: copy_bound(alloc, &parent.low)?,
        high: Some(key.copy(alloc)?),
        parents: Items::from_slice(alloc, &[parent.number])?,
        generation: parent.generation + 1,
        place: PlaceOf::Off,
    })
}

pub fn high_half(
    alloc: Global,
    number: RegionId,
    key: &Key,
    parent: &Region,
) -> Result<Region, Memory>
    requires { parent.now.generation < 4096 }
    ensures { IfOk result (λ half. half ≡ high_half number key.now parent.now) }
{
    Ok(Region {
        number,
        table: parent.table.copy(alloc)?,
        low: Some(key.copy(alloc)?),
        high: copy_bound(alloc, &parent.high)?,
        parents: Items::from_slice(alloc, &[parent.number])?,
        generation: parent.generation + 1,
        place: PlaceOf::Off,
    })
}

pub fn joined(
    alloc: Global,
    number: RegionId,
    low: &Region,
    high: &Region,
) -> Result<Region, Memory>
    requires low { low.now.generation < 4096 }
    requires high { high.now.generation < 4096 }
    ensures { IfOk result (λ whole. whole ≡ joined number low.now high.now) }
{
    Ok(Region {
        number,
        table: low.table.copy(alloc)?,
        low: copy_bound(alloc, &low.low)?,
        high: copy_bound(alloc, &high.high)?,
        parents: Items::from_slice(alloc, &[low.number, high.number])?,
        generation: low.generation.max(high.generation) + 1,
        place: PlaceOf::Off,
    })
}
