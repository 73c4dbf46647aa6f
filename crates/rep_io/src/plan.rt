ghost use Rattle.std.specs.Prelude.{◌≡◌, ◌↔◌, ◌⊎◌, IsTrue};

use crate::faults::Faults;
use rep_types::Words;

/// Which calls are to fail, by their numbers from 1, and how many calls and faults there were.
#[derive(Drop)]
pub struct Plan {
    pub failing: Words,
    pub calls: u64,
    pub faults: Faults,
}

impl Plan {
    ghost use Rattle.rep_io.specs.Memory.{IsListed, Counts};

    pub fn new(failing: Words) -> Plan
        ensures failing { result.failing ≡ failing }
        ensures calls { result.calls ≡ 0 }
        ensures faults { result.faults.count ≡ 0 }
    {
        Plan {
            failing,
            calls: 0,
            faults: Faults { count: 0 },
        }
    }

    /// Counts a call, and says whether it fails: where it is listed, or can't be served.
    pub fn fails(&mut self, unserved: bool) -> bool
        ensures fails { IsTrue result ↔ (IsListed self.old ⊎ IsTrue unserved) }
        ensures counts { Counts result self.old self.new }
    {
        self.calls = self.calls.saturating_add(1);
        let fails = unserved || self.failing.as_slice().contains(&self.calls);
        if fails {
            self.faults.raise();
        }
        fails
    }
}
