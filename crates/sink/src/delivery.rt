ghost use Rattle.std.specs.Prelude.{◌≡◌, ◌≤◌, None, All, true, length};
ghost use Rattle.wire_batch.specs.Batches.{IsForm, IsSendable};
ghost use Rattle.sink.specs.Delivering.{arrival, Ascend, Delivers};

use crate::{Arrivals, Refused};
use rep_types::{Cause, Entry, EntryId, Items, Memory, Origin, Tickets};
use std::alloc::Global;
use wire_batch::Batch;

/// What became of a delivery, with the tickets that were acknowledged with the forms, ascending.
#[derive(Drop)]
pub enum Delivered {
    /// All forms arrived, so many.
    All {
        arrived: u16,
        acks: Tickets,
    },
    /// The form at the index, from 0, was refused. Those before it arrived.
    Stopped {
        index: u16,
        acks: Tickets,
        cause: Cause,
    },
}

// Where a form of the batch comes from.
fn origin_of(batch: &Batch, form: &Entry) -> Origin
    ensures { result ≡ (arrival batch.now form.now).origin }
{
    Origin {
        peer: batch.peer,
        entry: EntryId {
            cluster: batch.cluster,
            region: form.region,
            seq: form.seq,
        },
    }
}

fn ascending(tickets: Vec<u32>) -> Tickets
    ensures { Ascend tickets.items result }
{
    let mut tickets = tickets;
    tickets.sort_unstable();
    Items::from_vec(tickets)
}

// Gives these forms of a batch to the host.
fn arrive_all<A: Arrivals>(
    alloc: Global,
    batch: &Batch,
    forms: &[Entry],
    host: &mut A,
) -> Result<Delivered, Memory>
    requires calm { (A.state host.old).halted ≡ None }
    requires forms { All IsForm forms.now }
    requires few { length forms.now ≤ 1000 }
    requires places { All (λ form. A.has_place host.old form ≡ true) forms.now }
    ensures does { Delivers batch.now forms.now (A.state host.old) (A.state host.new) result }
    ensures places { A.has_place host.new ≡ A.has_place host.old }
{
    let mut acks = Vec::new(alloc);
    let mut arrived: u16 = 0;
    for form in forms {
        match host.arrive(form, origin_of(batch, form)) {
            Ok(tickets) => {
                if acks.extend_from_slice(tickets.as_slice()).is_err() {
                    return Err(Memory);
                }
                arrived += 1;
            }
            Err(Refused::Stopped { cause }) => {
                return Ok(Delivered::Stopped {
                    index: arrived,
                    acks: ascending(acks),
                    cause,
                });
            }
            Err(Refused::Memory) => return Err(Memory),
        }
    }
    Ok(Delivered::All {
        arrived,
        acks: ascending(acks),
    })
}

/// Gives the batch's forms to the host, in order, each once, until one is refused or memory runs out. After want of memory
/// first forms have arrived.
pub fn deliver<A: Arrivals>(alloc: Global, batch: &Batch, host: &mut A) -> Result<Delivered, Memory>
    requires calm { (A.state host.old).halted ≡ None }
    requires batch { IsSendable batch.now }
    requires places { All (λ form. A.has_place host.old form ≡ true) batch.now.forms }
    ensures does { Delivers batch.now batch.now.forms (A.state host.old) (A.state host.new) result }
    ensures places { A.has_place host.new ≡ A.has_place host.old }
{
    arrive_all(alloc, batch, batch.forms.as_slice(), host)
}
