// The regions of a table that aren't Gone, in the order of their keys.
ghost use Rattle.std.specs.Prelude.{◌≡◌, ℕ, ◌+◌, ◌<◌, ◌⊎◌, [], ◌∷◌, true, false, length, position, slice_index, All, IfOk, IfSome, OnOk, OnErr};
ghost use Rattle.region_meta.specs.Orders.{IsLastAt, IsHolder, begins_by, is_place, put_halves, put_other, leave_out};

use crate::Region;
use crate::bounds::is_from;
use rep_types::{Items, Key, Memory, RegionId};
use std::alloc::Global;
use std::marker::Model;

/// Places of regions, from 0.
#[derive(Drop)]
pub struct Order {
    places: Vec<usize>,
}

impl Model for Order {
    ghost use Rattle.std.specs.Prelude.{List, ℕ};

    ghost Value = { List ℕ };

    ghost view = { λ order. order.places.items };
}

fn place_in(places: &[usize], place: usize) -> Option<usize>
    ensures at { result ≡ position (is_place place) places.now }
    ensures within { IfSome result (λ at. at < length places.now) }
{
    places.iter().position(|other| *other == place)
}

fn put_other(places: &mut Vec<usize>, one: usize, other: usize)
    ensures { places.new.items ≡ put_other one other places.old.items }
{
    if let Some(at) = place_in(places, one) {
        places[at] = other;
    }
}

fn leave_out(places: &mut Vec<usize>, one: usize)
    ensures { places.new.items ≡ leave_out one places.old.items }
{
    if let Some(at) = place_in(places, one) {
        places.remove(at);
    }
}

fn begins_by(regions: &[Region], row: &Key, place: usize) -> bool
    requires { place < length regions.now }
    ensures { result ≡ begins_by regions.now row.now place }
{
    is_from(&regions[place].low, row)
}

// The place of the last of these regions, which follow one another, that begins at the row or before
// it: a binary search.
fn last_from(regions: &[Region], places: &[usize], row: &Key) -> usize
    requires some { 0 < length places.now }
    requires known { All (λ n. n < length regions.now) places.now }
    ensures { IsLastAt regions.now row.now places.now result }
{
    let mut first = 0;
    let mut end = places.len();
    while end - first > 1 {
        let middle = first + (end - first) / 2;
        if begins_by(regions, row, places[middle]) {
            first = middle;
        } else {
            end = middle;
        }
    }
    first
}

impl Order {
    pub fn new(alloc: Global, place: usize) -> Result<Order, Memory>
        ensures { IfOk result (λ order. order ≡ place ∷ []) }
    {
        let places = Vec::from_slice(alloc, &[place])?;
        Ok(Order { places })
    }

    /// The halves, at a place and the next, come instead of their parent.
    pub fn split(&mut self, parent: usize, half: usize) -> Result<(), Memory>
        requires { half < 4096 }
        ensures ok { OnOk result (self.new ≡ put_halves parent half self.old) }
        ensures err { OnErr result (self.new ≡ self.old) }
    {
        let Some(at) = place_in(&self.places, parent) else {
            return Ok(());
        };
        self.places.insert(at, half)?;
        self.places[at + 1] = half + 1;
        Ok(())
    }

    /// What two regions make comes instead of them.
    pub fn merge(&mut self, low: usize, high: usize, whole: usize)
        ensures { self.new ≡ leave_out high (put_other low whole self.old) }
    {
        put_other(&mut self.places, low, whole);
        leave_out(&mut self.places, high);
    }

    /// The number of the last region that begins at the row or before it.
    pub fn holder(&self, regions: &Items<Region>, row: &Key) -> Option<RegionId>
        requires some { 0 < length self.now }
        requires known { All (λ n. n < length regions.now) self.now }
        ensures { IsHolder regions.now row.now self.now result }
    {
        let last = last_from(regions.as_slice(), &self.places, row);
        match regions.get(self.places[last]) {
            Some(region) => Some(region.number),
            None => None,
        }
    }
}
