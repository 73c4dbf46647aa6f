ghost use Rattle.std.specs.Prelude.{◌≡◌, ◌≤◌, ◌<◌, ◌↔◌, [], ◌∷◌, ◌++◌, All, None, Some, IsNone, IfSome, OnOk, OnErr, length};
ghost use Rattle.std.specs.Option.{ForSome};
ghost use Rattle.std.specs.List.Sorted.{IsNonDecreasing, IsPartitionPoint};
ghost use Rattle.region_barriers.specs.History.{History, IsRangeOf, last_barrier};

use crate::Parents;
use rep_types::{Items, Memory, Words};
use std::alloc::Global;
use std::marker::Model;

/// The sequence ids from a barrier on, below the next one. The last range has every later id, and
/// ends with the final barrier once there is one.
#[derive(Clone, Copy)]
pub struct Range {
    /// No barrier stands before this one.
    pub first: bool,
    pub barrier: u64,
    pub end: Option<u64>,
}

/// A region's barriers in order, each at least 1; its final barrier; and its parents.
#[derive(Drop)]
pub struct Barriers {
    parents: Parents,
    barriers: Words,
    final_barrier: Option<u64>,
}

impl Model for Barriers {
    ghost use Rattle.std.specs.Prelude.{◌≤◌, All};
    ghost use Rattle.std.specs.List.Sorted.{IsNonDecreasing};
    ghost use Rattle.region_barriers.specs.History.{History};

    ghost Value = { History };

    ghost view = { λ b. record { parents = b.parents; barriers = b.barriers; final_barrier = b.final_barrier } };

    ghost invariant = { λ b. IsNonDecreasing b.barriers × All (λ barrier. 1 ≤ barrier) b.barriers };
}

// How many barriers are at most the id.
fn reached(barriers: &[u64], seq: u64) -> usize
    requires { IsNonDecreasing barriers.now }
    ensures within { result ≤ length barriers.now }
    ensures parts { IsPartitionPoint (λ barrier. barrier ≤ seq) (λ barrier. seq < barrier) barriers.now result }
{
    barriers.partition_point(|barrier| *barrier <= seq)
}

impl Barriers {
    /// No barrier yet.
    pub fn new(alloc: Global, parents: Parents) -> Barriers
        ensures { result ≡ record { parents = parents; barriers = []; final_barrier = None } }
    {
        Barriers {
            parents,
            barriers: Items::new(alloc),
            final_barrier: None,
        }
    }

    /// Adds a barrier, which may equal the last one.
    pub fn add(&mut self, barrier: u64) -> Result<(), Memory>
        requires least { 1 ≤ barrier }
        requires order { ForSome (last_barrier self.old) (λ last. last ≤ barrier) }
        ensures ok { OnOk result (self.new ≡ record self.old { barriers = self.old.barriers ++ barrier ∷ [] }) }
        ensures err { OnErr result (self.new ≡ self.old) }
    {
        self.barriers.push(barrier)
    }

    /// The range of a sequence id; none where the id is below every barrier.
    pub fn range_of(&self, seq: u64) -> Option<Range>
        ensures none { IsNone result ↔ All (λ barrier. seq < barrier) self.now.barriers }
        ensures found { IfSome result (IsRangeOf self.now seq) }
        ensures least { IfSome result (λ range. 1 ≤ range.barrier) }
    {
        let barriers = self.barriers.as_slice();
        let reached = reached(barriers, seq);
        if reached == 0 {
            return None;
        }
        Some(Range {
            first: reached == 1,
            barrier: barriers[reached - 1],
            end: self.barriers.get(reached).copied().or(self.final_barrier),
        })
    }

    /// The region was split or merged: this ends its last range.
    pub fn close_with(&mut self, barrier: u64)
        ensures { self.new ≡ record self.old { final_barrier = Some barrier } }
    {
        self.final_barrier = Some(barrier);
    }

    pub fn final_barrier(&self) -> Option<u64>
        ensures { result ≡ self.now.final_barrier }
    {
        self.final_barrier
    }

    pub fn parents(&self) -> &Parents
        ensures { result.now ≡ self.now.parents }
    {
        &self.parents
    }

    pub fn barriers(&self) -> &[u64]
        ensures value { result.now ≡ self.now.barriers }
        ensures order { IsNonDecreasing result.now }
        ensures least { All (λ barrier. 1 ≤ barrier) result.now }
    {
        self.barriers.as_slice()
    }
}
