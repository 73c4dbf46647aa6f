ghost use Rattle.std.specs.Prelude.{◌≡◌, ◌≤◌, None, Bool, true};
ghost use Rattle.rep_types.specs.declared.entry.Entry.{Entry};
ghost use Rattle.wire_batch.specs.Batches.{IsForm};
ghost use Rattle.sink.specs.Arriving.{Arriving, Arrives};

use rep_types::{Cause, Entry, Origin, Tickets};

/// A form, and the peer and source entry that it arrives from.
#[derive(Drop)]
pub struct Arrival {
    pub form: Entry,
    pub origin: Origin,
}

/// Why a host took no more forms.
#[derive(Drop)]
pub enum Halt {
    Stopped { arrival: Arrival, cause: Cause },
    Memory,
}

/// Why a form wasn't taken.
#[derive(Drop)]
pub enum Refused {
    Stopped { cause: Cause },
    Memory,
}

/// A host that takes forms in one delivery.
pub trait Arrivals {
    /// The forms that it took, the tickets that it answered, and why it took no more.
    ghost state: { Self → Arriving };

    /// Whether it has the form's table and families.
    ghost has_place: { Self → Entry → Bool };

    /// Takes a form: it is synced with all that is pending at its server, whose tickets are answered.
    fn arrive(&mut self, form: &Entry, origin: Origin) -> Result<Tickets, Refused>
        requires calm { (state self.old).halted ≡ None }
        requires form { IsForm form.now }
        requires seq { 1 ≤ origin.entry.seq }
        requires place { has_place self.old form.now ≡ true }
        ensures does { Arrives form.now origin (state self.old) (state self.new) result }
        ensures places { has_place self.new ≡ has_place self.old };
}
