ghost use Rattle.std.specs.Prelude.{◌≡◌, ◌≤◌, ◌<◌, [], ◌∷◌, ◌++◌, length, slice_get, All, OnOk, OnErr};
ghost use Rattle.std.specs.Option.{option_copied};

use rep_types::{Items, Memory, RegionId};
use std::alloc::Global;
use std::marker::Model;

/// A region that was split or merged into another, and its final barrier.
#[derive(Clone, Copy)]
pub struct Parent {
    pub region: RegionId,
    pub final_barrier: u64,
}

/// At most two parents, in order, each with a final barrier of at least 1.
#[derive(Drop)]
pub struct Parents {
    items: Items<Parent>,
}

impl Model for Parents {
    ghost use Rattle.std.specs.Prelude.{List, ◌≤◌, length, All};
    ghost use Rattle.region_barriers.specs.declared.parents.Parent.{Parent};

    ghost Value = { List Parent };

    ghost view = { λ parents. parents.items };

    ghost invariant = { λ parents. (length parents.items ≤ 2) × All (λ parent. 1 ≤ parent.final_barrier) parents.items };
}

impl Parents {
    pub fn new(alloc: Global) -> Parents
        ensures { result ≡ [] }
    {
        Parents {
            items: Items::new(alloc),
        }
    }

    pub fn push(&mut self, item: Parent) -> Result<(), Memory>
        requires room { length self.old < 2 }
        requires least { 1 ≤ item.final_barrier }
        ensures ok { OnOk result (self.new ≡ self.old ++ item ∷ []) }
        ensures err { OnErr result (self.new ≡ self.old) }
    {
        self.items.push(item)
    }

    pub fn len(&self) -> usize
        ensures value { result ≡ length self.now }
        ensures most { result ≤ 2 }
    {
        self.items.len()
    }

    pub fn get(&self, at: usize) -> Option<&Parent>
        ensures { option_copied result ≡ slice_get self.now at }
    {
        self.items.get(at)
    }

    pub fn as_slice(&self) -> &[Parent]
        ensures value { result.now ≡ self.now }
        ensures few { length result.now ≤ 2 }
        ensures least { All (λ parent. 1 ≤ parent.final_barrier) result.now }
    {
        self.items.as_slice()
    }
}
