ghost use Rattle.std.specs.Prelude.{◌≡◌, ℕ, ◌+◌, ◌*◌, ◌-◌, ◌^◌, ◌<◌, ◌≤◌, true, is_some};
ghost use Rattle.std.specs.Ordering.{nat_cmp};
ghost use Rattle.std.specs.BTreeMap.{get, btree_map_len};

use rep_types::Memory;
use std::alloc::Global;
use std::collections::BTreeMap;

/// The plans and faults of one kind of call. Its calls are counted while failures are planned ahead.
#[derive(Drop)]
pub struct Kind {
    /// How many failures were planned.
    pub planned: u32,
    /// How many calls failed.
    pub faults: u32,
    /// The number of the latest call.
    calls: u64,
    /// The greatest number of a call that is to fail, or of one that did.
    last: u64,
    /// By the number of a call that is to fail: how many bytes an append leaves.
    due: BTreeMap<u64, u32>,
    ghost fits: { planned < 2 ^ 32 },
    ghost few: { faults + btree_map_len due ≤ planned },
    ghost reached: { calls ≤ last },
    ghost near: { last ≤ planned * (2 ^ 32 - 1) },
    ghost later: { (n : ℕ) → is_some (get nat_cmp due n) ≡ true → calls < n },
    ghost within: { (n : ℕ) → is_some (get nat_cmp due n) ≡ true → n ≤ last },
}

impl Kind {
    ghost use Rattle.std.specs.Prelude.{None, OnOk, OnErr};
    ghost use Rattle.rep_vault.specs.Kinds.{ahead, Passed, Planned, Unchanged};

    pub fn new(alloc: Global) -> Kind
        ensures planned { result.planned ≡ 0 }
        ensures faults { result.faults ≡ 0 }
        ensures ahead { (n : ℕ) → ahead result n ≡ None }
    {
        Kind {
            planned: 0,
            faults: 0,
            calls: 0,
            last: 0,
            due: BTreeMap::new(alloc),
        }
    }

    /// How many bytes the next call leaves, if it is to fail.
    pub fn due(&self) -> Option<u32>
        ensures { result ≡ ahead self.now 1 }
    {
        self.due.get(&(self.calls + 1)).copied()
    }

    /// A call was made. It failed if that was due.
    pub fn pass(&mut self)
        ensures { Passed self.old self.new }
    {
        if self.calls < self.last {
            self.calls += 1;
            if self.due.remove(&self.calls).is_some() {
                self.faults += 1;
            }
        }
    }

    pub fn plan(&mut self, nth: u32, bytes: u32) -> Result<(), Memory>
        requires nth { 1 ≤ nth }
        requires room { self.old.planned < 2 ^ 32 - 1 }
        ensures ok { OnOk result (Planned nth bytes self.old self.new) }
        ensures err { OnErr result (Unchanged self.old self.new) }
    {
        let number = self.calls + u64::from(nth);
        self.due.insert(number, bytes)?;
        self.planned += 1;
        self.last = self.last.max(number);
        Ok(())
    }
}
