ghost use Rattle.std.specs.Prelude.{◌≡◌, ℕ, ◌+◌, ◌-◌, ◌^◌, ◌<◌, ◌≤◌, None, OnOk, OnErr};
ghost use Rattle.std.specs.Borrow.{sem};
ghost use Rattle.rep_types.specs.declared.state.Call.{Call};
ghost use Rattle.rep_vault.specs.Tallies.{total};
ghost use Rattle.rep_vault.specs.Kinds.{ahead, Unchanged};
ghost use Rattle.rep_vault.specs.Plans.{of_kind, faults_of, planned_of, LendsKind, PassesOne, Strikes, PlansAt, AreUnchanged};

use crate::kind::Kind;
use rep_types::{Call, Memory};
use std::alloc::Global;

/// The plans and faults of all kinds of calls.
#[derive(Drop)]
pub struct Plans {
    create: Kind,
    append: Kind,
    sync: Kind,
    seal: Kind,
    read: Kind,
    make: Kind,
    rename: Kind,
    remove: Kind,
    list: Kind,
    put: Kind,
}

impl Plans {
    pub fn new(alloc: Global) -> Plans
        ensures none { (k : Call) (n : ℕ) → ahead (of_kind k result) n ≡ None }
        ensures faults { (k : Call) → faults_of result k ≡ 0 }
        ensures planned { (k : Call) → planned_of result k ≡ 0 }
    {
        Plans {
            create: Kind::new(alloc),
            append: Kind::new(alloc),
            sync: Kind::new(alloc),
            seal: Kind::new(alloc),
            read: Kind::new(alloc),
            make: Kind::new(alloc),
            rename: Kind::new(alloc),
            remove: Kind::new(alloc),
            list: Kind::new(alloc),
            put: Kind::new(alloc),
        }
    }

    fn of(&self, call: Call) -> &Kind
        ensures { result.now ≡ of_kind call self.now }
    {
        match call {
            Call::Create => &self.create,
            Call::Append => &self.append,
            Call::Sync => &self.sync,
            Call::Seal => &self.seal,
            Call::Read => &self.read,
            Call::Make => &self.make,
            Call::Rename => &self.rename,
            Call::Remove => &self.remove,
            Call::List => &self.list,
            Call::Put => &self.put,
        }
    }

    fn of_mut(&mut self, call: Call) -> &mut Kind
        ensures* writes_back { sem 𝓛 (LendsKind self.entry call result) }
        ensures value { result.now ≡ of_kind call self.old }
    {
        match call {
            Call::Create => &mut self.create,
            Call::Append => &mut self.append,
            Call::Sync => &mut self.sync,
            Call::Seal => &mut self.seal,
            Call::Read => &mut self.read,
            Call::Make => &mut self.make,
            Call::Rename => &mut self.rename,
            Call::Remove => &mut self.remove,
            Call::List => &mut self.list,
            Call::Put => &mut self.put,
        }
    }

    /// How many bytes the next call of that kind leaves, if it is to fail.
    pub fn due(&self, call: Call) -> Option<u32>
        ensures { result ≡ ahead (of_kind call self.now) 1 }
    {
        self.of(call).due()
    }

    /// A call of that kind was made. It failed if that was due.
    pub fn pass(&mut self, call: Call)
        ensures { PassesOne call self.old self.new }
    {
        self.of_mut(call).pass();
    }

    /// Whether the next call of that kind is to fail. If so it is counted as made.
    pub fn strikes(&mut self, call: Call) -> bool
        ensures { Strikes call self.old self.new result }
    {
        let due = self.due(call).is_some();
        if due {
            self.pass(call);
        }
        due
    }

    pub fn plan(&mut self, call: Call, nth: u32, bytes: u32) -> Result<(), Memory>
        requires nth { 1 ≤ nth }
        requires room { planned_of self.old call < 2 ^ 32 - 1 }
        ensures ok { OnOk result (PlansAt call nth bytes self.old self.new) }
        ensures err { OnErr result (AreUnchanged self.old self.new) }
    {
        self.of_mut(call).plan(nth, bytes)
    }

    pub fn faults(&self) -> u64
        ensures { result ≡ total (faults_of self.now) }
    {
        u64::from(self.create.faults)
            + u64::from(self.append.faults)
            + u64::from(self.sync.faults)
            + u64::from(self.seal.faults)
            + u64::from(self.read.faults)
            + u64::from(self.make.faults)
            + u64::from(self.rename.faults)
            + u64::from(self.remove.faults)
            + u64::from(self.list.faults)
            + u64::from(self.put.faults)
    }
}
