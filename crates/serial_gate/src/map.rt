ghost use Rattle.std.specs.Prelude.{◌≡◌, ◌≤◌, ◌+◌, ◌-◌, ◌==◌, ℕ, [], Some, OnOk, OnErr, IsOk, if◌then◌else◌, length};
ghost use Rattle.std.specs.Option.{option_copied};
ghost use Rattle.serial_gate.specs.Regions.{barriers_of, with_barriers};

use region_barriers::Barriers;
use rep_types::{Items, Memory, RegionId};
use std::alloc::Global;
use std::marker::Model;

/// The barriers of a cluster's regions. Regions are numbered from 1 without gaps: the first has number 1.
#[derive(Drop)]
pub struct BarrierMap {
    items: Items<Barriers>,
}

impl Model for BarrierMap {
    ghost use Rattle.std.specs.Prelude.{List};
    ghost use Rattle.region_barriers.specs.History.{History};

    ghost Value = { List History };

    ghost view = { λ map. map.items };
}

// The place of a region among all.
fn place(region: RegionId) -> usize
    ensures { result ≡ region - 1 }
{
    region.number() as usize - 1
}

impl BarrierMap {
    /// No region is known.
    pub fn new(alloc: Global) -> BarrierMap
        ensures { result ≡ [] }
    {
        BarrierMap {
            items: Items::new(alloc),
        }
    }

    /// The region's barriers, if it is known.
    pub fn get(&self, region: RegionId) -> Option<&Barriers>
        ensures { option_copied result ≡ barriers_of region self.now }
    {
        self.items.get(place(region))
    }

    /// Sets the barriers of a known region, or of the one after the last. It takes memory for the latter alone.
    pub fn set(&mut self, region: RegionId, barriers: Barriers) -> Result<(), Memory>
        requires { region ≤ length self.old + 1 }
        ensures ok { OnOk result (self.new ≡ with_barriers region barriers self.old) }
        ensures err { OnErr result (self.new ≡ self.old) }
        ensures known { region ≤ length self.old → IsOk result }
    {
        let at = place(region);
        if at < self.items.len() {
            *self.items.at_mut(at) = barriers;
            Ok(())
        } else {
            self.items.push(barriers)
        }
    }
}
