ghost use Rattle.std.specs.Prelude.{◌≡◌, ◌≢◌, ℕ, List, ◌+◌, ◌<◌, [], ◌∷◌, ◌++◌, None, Some, Err, IsOk, IfSome, IfOk, OnOk, OnErr, IsOkUnless, length, slice_get, slice_set};
ghost use Rattle.rep_types.specs.declared.state.PlaceOf.TheVariants as place_of;
ghost use Rattle.region_meta.specs.Refusals.{merge_refusal};
ghost use Rattle.region_meta.specs.Changes.{next_number, merged, moved};
ghost use Rattle.region_meta.specs.Orders.{put_other, leave_out};
ghost use Rattle.region_meta.specs.declared.region.Region.{Region};
ghost use Rattle.region_meta.specs.declared.error.MetaError.TheVariants as error;

use crate::bounds::is_adjacent;
use crate::order::Order;
use crate::region::{is_off, joined};
use crate::{MetaError, Region, RegionMap};
use rep_types::{Items, Memory, PlaceOf, RegionId};
use std::alloc::Global;

// What two regions of the table make comes instead of them, or nothing changes.
fn put_whole(
    regions: &mut Items<Region>,
    orders: &mut Items<Order>,
    table: usize,
    low: usize,
    high: usize,
    whole: Region,
) -> Result<(), Memory>
    requires low { low < length regions.old }
    requires high { high < length regions.old }
    requires apart { high ≢ low }
    requires table { table < length orders.old }
    ensures regions { OnOk result ((r s : Region) → slice_get regions.old low ≡ Some r → slice_get regions.old high ≡ Some s
        → regions.new ≡ slice_set (slice_set regions.old low (moved place_of.Gone r)) high (moved place_of.Gone s) ++ whole ∷ []) }
    ensures orders { OnOk result ((ns : List ℕ) → slice_get orders.old table ≡ Some ns
        → orders.new ≡ slice_set orders.old table (leave_out high (put_other low (length regions.old) ns))) }
    ensures regions_stay { OnErr result (regions.new ≡ regions.old) }
    ensures orders_stay { OnErr result (orders.new ≡ orders.old) }
{
    let count = regions.len();
    regions.push(whole)?;
    orders.at_mut(table).merge(low, high, count);
    regions.at_mut(low).place = PlaceOf::Gone;
    regions.at_mut(high).place = PlaceOf::Gone;
    Ok(())
}

impl RegionMap {
    /// What `merge` would answer, apart from memory.
    #[tactic(auto, unfolding(crate::specs::Regions::given))]
    pub fn may_merge(&self, low: RegionId, high: RegionId, closed: bool) -> Result<(), MetaError>
        ensures refused { IfSome (merge_refusal low high closed self.now) (λ why. result ≡ Err why) }
        ensures accepted { merge_refusal low high closed self.now ≡ None → IsOk result }
    {
        let Some(first) = self.region(low) else {
            return Err(MetaError::NoRegion);
        };
        let Some(second) = self.region(high) else {
            return Err(MetaError::NoRegion);
        };
        if !is_off(&first.place) {
            return Err(MetaError::WrongPlace { have: first.place });
        }
        if !is_off(&second.place) {
            return Err(MetaError::WrongPlace { have: second.place });
        }
        if !closed {
            return Err(MetaError::NotClosed);
        }
        if !is_adjacent(first, second) {
            return Err(MetaError::NotAdjacent);
        }
        self.room_for(1)
    }

    /// Merges two regions of a table that are Off, whose last commits are close markers where `closed`
    /// says so, and of which the second begins where the first ends. They are Gone then; the new
    /// region is Off, and has them as parents in this order. NoRegion, WrongPlace, NotClosed,
    /// NotAdjacent and TooMany come in this order, the first two for either region; an error changes
    /// nothing.
    pub fn merge(
        &mut self,
        alloc: Global,
        low: RegionId,
        high: RegionId,
        closed: bool,
    ) -> Result<RegionId, MetaError>
        ensures number { IfOk result (λ number. number ≡ next_number self.old) }
        ensures joined { OnOk result (self.new ≡ merged low high self.old) }
        ensures refused { IfSome (merge_refusal low high closed self.old) (λ why. result ≡ Err why) }
        ensures accepted { merge_refusal low high closed self.old ≡ None → IsOkUnless result error.Memory }
        ensures err { OnErr result (self.new ≡ self.old) }
    {
        self.may_merge(low, high, closed)?;
        let count = self.regions.len();
        let low = low.number() as usize - 1;
        let high = high.number() as usize - 1;
        let Some(first) = self.regions.get(low) else {
            return Err(MetaError::NoRegion);
        };
        let Some(second) = self.regions.get(high) else {
            return Err(MetaError::NoRegion);
        };
        let Some(table) = self.table_at(&first.table) else {
            return Err(MetaError::NoRegion);
        };
        let Some(number) = RegionId::new(count as u32 + 1) else {
            return Err(MetaError::TooMany { limit: 4096 });
        };
        let whole = joined(alloc, number, first, second)?;
        put_whole(&mut self.regions, &mut self.orders, table, low, high, whole)?;
        Ok(number)
    }
}
