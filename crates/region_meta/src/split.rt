ghost use Rattle.std.specs.Prelude.{◌≡◌, ℕ, List, ◌+◌, ◌<◌, [], ◌∷◌, ◌++◌, None, Some, Err, IsOk, IfSome, IfOk, OnOk, OnErr, IsOkUnless, length, slice_get, slice_set};
ghost use Rattle.rep_types.specs.declared.state.PlaceOf.TheVariants as place_of;
ghost use Rattle.region_meta.specs.Refusals.{split_refusal};
ghost use Rattle.region_meta.specs.Changes.{next_number, split_at, moved};
ghost use Rattle.region_meta.specs.Orders.{put_halves};
ghost use Rattle.region_meta.specs.declared.region.Region.{Region};
ghost use Rattle.region_meta.specs.declared.error.MetaError.TheVariants as error;

use crate::bounds::splits;
use crate::order::Order;
use crate::region::{high_half, is_off, low_half};
use crate::{MetaError, Region, RegionMap};
use rep_types::{Items, Key, Memory, PlaceOf, RegionId};
use std::alloc::Global;

// Adds both or none.
fn push_both(regions: &mut Items<Region>, low: Region, high: Region) -> Result<(), Memory>
    ensures ok { OnOk result (regions.new ≡ regions.old ++ low ∷ high ∷ []) }
    ensures err { OnErr result (regions.new ≡ regions.old) }
{
    let count = regions.len();
    regions.push(low)?;
    if regions.push(high).is_err() {
        regions.truncate(count);
        return Err(Memory);
    }
    Ok(())
}

// The halves come instead of the region at the place, which is of the table, or nothing changes.
fn put_halves(
    regions: &mut Items<Region>,
    orders: &mut Items<Order>,
    table: usize,
    place: usize,
    low: Region,
    high: Region,
) -> Result<(), Memory>
    requires place { place < length regions.old }
    requires table { table < length orders.old }
    requires room { length regions.old < 4096 }
    ensures regions { OnOk result ((r : Region) → slice_get regions.old place ≡ Some r
        → regions.new ≡ slice_set regions.old place (moved place_of.Gone r) ++ low ∷ high ∷ []) }
    ensures orders { OnOk result ((ns : List ℕ) → slice_get orders.old table ≡ Some ns
        → orders.new ≡ slice_set orders.old table (put_halves place (length regions.old) ns)) }
    ensures regions_stay { OnErr result (regions.new ≡ regions.old) }
    ensures orders_stay { OnErr result (orders.new ≡ orders.old) }
{
    let count = regions.len();
    push_both(regions, low, high)?;
    if orders.at_mut(table).split(place, count).is_err() {
        regions.truncate(count);
        return Err(Memory);
    }
    regions.at_mut(place).place = PlaceOf::Gone;
    Ok(())
}

impl RegionMap {
    /// What `split` would answer, apart from memory.
    #[tactic(auto, unfolding(crate::specs::Regions::given))]
    pub fn may_split(&self, region: RegionId, key: &Key, closed: bool) -> Result<(), MetaError>
        ensures refused { IfSome (split_refusal region key.now closed self.now) (λ why. result ≡ Err why) }
        ensures accepted { split_refusal region key.now closed self.now ≡ None → IsOk result }
    {
        let Some(parent) = self.region(region) else {
            return Err(MetaError::NoRegion);
        };
        if !is_off(&parent.place) {
            return Err(MetaError::WrongPlace { have: parent.place });
        }
        if !closed {
            return Err(MetaError::NotClosed);
        }
        if !splits(key, parent) {
            return Err(MetaError::BadKey);
        }
        self.room_for(2)
    }

    /// Splits a region that is Off, and whose last commit is a close marker where `closed` says so, at
    /// a key that it holds, that isn't its low key, and isn't `.`, below which no key stands. It is Gone
    /// then; the halves are Off. NoRegion, WrongPlace, NotClosed, BadKey and TooMany come in this order;
    /// an error changes nothing.
    pub fn split(
        &mut self,
        alloc: Global,
        region: RegionId,
        key: &Key,
        closed: bool,
    ) -> Result<(RegionId, RegionId), MetaError>
        ensures low { IfOk result (λ halves. halves.0 ≡ next_number self.old) }
        ensures high { IfOk result (λ halves. halves.1 ≡ next_number self.old + 1) }
        ensures halved { OnOk result (self.new ≡ split_at region key.now self.old) }
        ensures refused { IfSome (split_refusal region key.now closed self.old) (λ why. result ≡ Err why) }
        ensures accepted { split_refusal region key.now closed self.old ≡ None → IsOkUnless result error.Memory }
        ensures err { OnErr result (self.new ≡ self.old) }
    {
        self.may_split(region, key, closed)?;
        let count = self.regions.len();
        let place = region.number() as usize - 1;
        let Some(parent) = self.regions.get(place) else {
            return Err(MetaError::NoRegion);
        };
        let Some(table) = self.table_at(&parent.table) else {
            return Err(MetaError::NoRegion);
        };
        let Some(low) = RegionId::new(count as u32 + 1) else {
            return Err(MetaError::TooMany { limit: 4096 });
        };
        let Some(high) = RegionId::new(count as u32 + 2) else {
            return Err(MetaError::TooMany { limit: 4096 });
        };
        let low_half = low_half(alloc, low, key, parent)?;
        let high_half = high_half(alloc, high, key, parent)?;
        put_halves(
            &mut self.regions,
            &mut self.orders,
            table,
            place,
            low_half,
            high_half,
        )?;
        Ok((low, high))
    }
}
