ghost use Rattle.std.specs.Prelude.{◌≡◌, ◌==◌, ℕ, [], None, Some, IfOk, IfErr, OnOk, OnErr, IsOk, IsSome, if◌then◌else◌, length, insert, slice_get, slice_set};
ghost use Rattle.std.specs.List.Sorted.{IsSearchInRange};
ghost use Rattle.last_ids.specs.Ids.{seq_of, last_of, put, IsRising};
ghost use Rattle.last_ids.specs.declared.ids.LastId.{LastId};

use rep_types::{Memory, RegionId};
use std::alloc::Global;
use std::marker::Model;

/// A region and a sequence id of it.
#[derive(Clone, Copy, PartialEq, Eq)]
pub struct LastId {
    pub region: RegionId,
    pub seq: u64,
}

/// A map from regions to sequence ids. A region without one counts as having 0.
#[derive(Drop)]
pub struct LastIds {
    ids: Vec<LastId>,
}

impl Model for LastIds {
    ghost use Rattle.std.specs.Prelude.{List};
    ghost use Rattle.last_ids.specs.Ids.{IsRising};
    ghost use Rattle.last_ids.specs.declared.ids.LastId.{LastId};

    ghost Value = { List LastId };

    ghost view = { λ last. last.ids.items };

    ghost invariant = { λ last. IsRising last.ids.items };
}

// Where the region stands, or where it goes.
fn place(ids: &[LastId], new: &LastId) -> Result<usize, usize>
    requires { IsRising ids.now }
    ensures bound { IsSearchInRange result (length ids.now) }
    ensures stands { IfOk result (λ at. (old : LastId) → slice_get ids.now at ≡ Some old → put new.now ids.now ≡ slice_set ids.now at new.now) }
    ensures found { IfOk result (λ at. (old : LastId) → slice_get ids.now at ≡ Some old → seq_of new.now.region ids.now ≡ Some old.seq) }
    ensures absent { IfErr result (λ at. put new.now ids.now ≡ insert ids.now at new.now) }
    ensures none { IfErr result (λ at. seq_of new.now.region ids.now ≡ None) }
{
    ids.binary_search_by(|id| id.region.number().cmp(&new.region.number()))
}

fn put(ids: &mut Vec<LastId>, new: LastId) -> Result<(), Memory>
    requires { IsRising ids.old.items }
    ensures ok { OnOk result (ids.new.items ≡ put new ids.old.items) }
    ensures err { OnErr result (ids.new.items ≡ ids.old.items) }
    ensures there { IsSome (seq_of new.region ids.old.items) → IsOk result }
{
    match place(ids, &new) {
        Ok(at) => ids[at] = new,
        Err(at) => ids.insert(at, new)?,
    }
    Ok(())
}

impl LastIds {
    /// No region has an id.
    pub fn new(alloc: Global) -> LastIds
        ensures { result ≡ [] }
    {
        LastIds {
            ids: Vec::new(alloc),
        }
    }

    /// The region's id, if it has one.
    pub fn get(&self, region: RegionId) -> Option<u64>
        ensures { result ≡ seq_of region self.now }
    {
        match place(&self.ids, &LastId { region, seq: 0 }) {
            Ok(at) => Some(self.ids[at].seq),
            Err(_) => None,
        }
    }

    /// The region's id, and 0 where it has none.
    pub fn last(&self, region: RegionId) -> u64
        ensures { result ≡ last_of region self.now }
    {
        self.get(region).unwrap_or(0)
    }

    /// Sets the region's id. It takes no memory where the region has one.
    pub fn set(&mut self, region: RegionId, seq: u64) -> Result<(), Memory>
        ensures ok { OnOk result (self.new ≡ put (record { region = region; seq = seq }) self.old) }
        ensures each { OnOk result ((r : ℕ) → seq_of r self.new ≡ (if region == r then Some seq else seq_of r self.old)) }
        ensures err { OnErr result (self.new ≡ self.old) }
        ensures there { IsSome (seq_of region self.old) → IsOk result }
    {
        put(&mut self.ids, LastId { region, seq })
    }

    /// The ids in the order of their regions, each region once.
    pub fn as_slice(&self) -> &[LastId]
        ensures value { result.now ≡ self.now }
        ensures order { IsRising result.now }
    {
        self.ids.as_slice()
    }
}
