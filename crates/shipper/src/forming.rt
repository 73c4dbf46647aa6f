// Which entries of a queue a batch takes.
ghost use Rattle.std.specs.Prelude.{◌≡◌, ◌≤◌, ◌++◌, ◌∷◌, [], true, false, List, IfOk, OnOk, IsOk};
ghost use Rattle.rep_types.specs.declared.entry.Entry.{Entry};
ghost use Rattle.serial_gate.specs.Gate.{reach};
ghost use Rattle.serial_gate.specs.declared.gate.Admission.TheVariants.{Go};
ghost use Rattle.shipper.specs.Batches.{Reaches, admission, is_go, gate_of, AnswersFirst, IsLongest, Forms};

use last_ids::LastIds;
use rep_types::{Entry, EntryId, Memory};
use serial_gate::{Admission, GateView, SoFar, admit};
use std::alloc::Global;
use wal_entry::entry_length;

/// What may be sent of a queue.
#[derive(Clone, Copy, PartialEq, Eq)]
pub enum Formed {
    /// Its first entries, so many.
    Batch { entries: u16 },
    /// It has none.
    Empty,
    /// Its first entry isn't admitted before this one is recorded.
    Held { need: EntryId },
}

// The answer for an entry behind a batch with these ids.
fn admission(view: &GateView<'_>, serial: bool, so_far: &SoFar, entry: &Entry) -> Admission
    ensures { result ≡ admission serial view.now.cluster view.now.barriers.now (reach view.now.last.now so_far.now) entry.now }
{
    if serial {
        admit(view, entry, so_far)
    } else {
        Admission::Go
    }
}

fn is_admitted(view: &GateView<'_>, serial: bool, so_far: &SoFar, entry: &Entry) -> bool
    ensures { result ≡ is_go (admission serial view.now.cluster view.now.barriers.now (reach view.now.last.now so_far.now) entry.now) }
{
    match admission(view, serial, so_far, entry) {
        Admission::Go => true,
        Admission::Held { need: _ } => false,
    }
}

// The entry's id is the greatest of its region now, where a serial peer's gate asks for it.
fn follow(so_far: &mut SoFar, serial: bool, entry: &Entry) -> Result<(), Memory>
    ensures ok { OnOk result ((batch : List Entry) → serial ≡ true → Reaches so_far.old batch → Reaches so_far.new (batch ++ entry.now ∷ [])) }
    ensures calm { serial ≡ false → IsOk result }
{
    if serial {
        let seq = so_far.last(entry.region).max(entry.seq);
        so_far.set(entry.region, seq)
    } else {
        Ok(())
    }
}

// How many entries of a queue the longest batch has.
fn longest(
    alloc: Global,
    queue: &[Entry],
    most: u16,
    view: &GateView<'_>,
    serial: bool,
) -> Result<u16, Memory>
    requires { 1 ≤ most }
    ensures longest { IfOk result (λ n. IsLongest (gate_of serial view.now.cluster view.now.barriers.now view.now.last.now) most queue.now n) }
    ensures some { AnswersFirst (gate_of serial view.now.cluster view.now.barriers.now view.now.last.now) Go queue.now → IfOk result (λ n. 1 ≤ n) }
    ensures calm { serial ≡ false → IsOk result }
{
    let mut so_far = LastIds::new(alloc);
    let mut room: u32 = 65536;
    let mut entries: u16 = 0;
    for entry in queue {
        let length = entry_length(entry);
        if entries == most || length > room || !is_admitted(view, serial, &so_far, entry) {
            return Ok(entries);
        }
        follow(&mut so_far, serial, entry)?;
        room -= length;
        entries += 1;
    }
    Ok(entries)
}

/// What may be sent of a queue at once: the longest prefix of at most `most` entries, 1 to 1,000, whose frames together
/// have at most 65,536 bytes and each of which the view's gate admits after those before it, where the peer is serial. It
/// looks at the entries of the batch, and at the one behind them.
pub fn form_batch(
    alloc: Global,
    queue: &[Entry],
    most: u16,
    view: &GateView<'_>,
    serial: bool,
) -> Result<Formed, Memory>
    requires { 1 ≤ most }
    ensures formed { IfOk result (Forms (gate_of serial view.now.cluster view.now.barriers.now view.now.last.now) most queue.now) }
    // A peer that isn't serial takes no memory.
    ensures calm { serial ≡ false → IsOk result }
{
    let Some(first) = queue.first() else {
        return Ok(Formed::Empty);
    };
    match admission(view, serial, &LastIds::new(alloc), first) {
        Admission::Held { need } => Ok(Formed::Held { need }),
        Admission::Go => {
            let entries = longest(alloc, queue, most, view, serial)?;
            Ok(Formed::Batch { entries })
        }
    }
}
