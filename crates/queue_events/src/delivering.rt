// A delivery: the forms of a flight arrive at its destination, in order.
ghost use Rattle.std.specs.Prelude.{◌≡◌, ◌<◌, true, IfOk, length, slice_get, slice_set, Some};
ghost use Rattle.std.specs.List.{AllByRecursion};
ghost use Rattle.rep_types.specs.declared.event.Event.TheVariants as event;
ghost use Rattle.rep_model.specs.State.{Route, of};
ghost use Rattle.rep_model.specs.declared.machine.Machine.{Machine};
ghost use Rattle.cluster_core.specs.declared.parts.Sent.{Sent};
ghost use Rattle.cluster_core.specs.Stands.{Stands};
ghost use Rattle.cluster_core.specs.Does.{FaultTold, Counts, FliesOr};
ghost use Rattle.queue_events.specs.Arriving.{MayArrive, IsMidway};
ghost use Rattle.queue_events.specs.Delivering.{IsSink, DeliversOr, IsPlace, DeliveryTold, behind};

use crate::acks::add_tickets;
use crate::arriving::{Arrived, arrive};
use cluster_core::{ClusterCore, CoreError, Sent};
use rep_model::Form;
use rep_types::{Cause, Items, PeerId, Refusal, Reply, Tickets};
use rep_vault::Vault;
use std::alloc::Global;

/// How many forms arrived, the tickets that were acknowledged with them, and what stopped the next one.
#[derive(Drop)]
pub struct Delivered {
    pub arrived: u64,
    pub acks: Tickets,
    pub stop: Option<Cause>,
}

// The place of a flight. Flights are numbered from 1 in the order in which they were sent.
fn flight_place(flights: &Items<Sent>, flight: u32) -> Option<usize>
    ensures { IsPlace flight flights.now result }
{
    if flight == 0 {
        return None;
    }
    let at = flight as usize - 1;
    if at < flights.len() { Some(at) } else { None }
}

fn sent_at(flights: &Items<Sent>, at: usize) -> &Sent
    requires { at < length flights.now }
    ensures { (sent : Sent) → slice_get flights.now at ≡ Some sent → result.now ≡ sent }
{
    &flights.as_slice()[at]
}

// Want of memory behind so many forms that arrived.
fn behind(why: CoreError, arrived: u64) -> CoreError
    ensures { result ≡ behind why arrived }
{
    match why {
        CoreError::Memory { changed } => CoreError::Memory {
            changed: changed || arrived > 0,
        },
    }
}

// All of the forms arrive, until one is stopped.
fn arrive_all<V: Vault>(
    core: &mut ClusterCore,
    alloc: Global,
    own: &mut V,
    peer: PeerId,
    synchronous: bool,
    forms: &[Form],
) -> Result<Delivered, CoreError>
    requires standing { (m : Machine) × IsMidway core.old.own m × Stands core.old.own (V.contents own.old) core.old (of core.old.own m) }
    requires may { AllByRecursion MayArrive forms.now }
    ensures does { (m : Machine) → IsMidway core.old.own m → Stands core.old.own (V.contents own.old) core.old (of core.old.own m)
        → DeliversOr core.old.own peer synchronous forms.now m (V.contents own.old) core.old (V.contents own.new) core.new result }
    ensures counts { Counts (V.tally own.old) (V.tally own.new) }
    ensures told { IfOk result (λ done. DeliveryTold core.old.own done (V.tally own.old) (V.tally own.new)) }
{
    let mut arrived = 0;
    let mut acks = Vec::new(alloc);
    for form in forms {
        match arrive(core, alloc, own, peer, synchronous, form) {
            Ok(Arrived::Taken(tickets)) => {
                let Ok(()) = add_tickets(&mut acks, tickets.as_slice()) else {
                    return Err(CoreError::Memory { changed: true });
                };
                arrived += 1;
            }
            Ok(Arrived::Stopped(cause)) => {
                return Ok(Delivered {
                    arrived,
                    acks: Items::from_vec(acks),
                    stop: Some(cause),
                });
            }
            Err(why) => return Err(behind(why, arrived)),
        }
    }
    Ok(Delivered {
        arrived,
        acks: Items::from_vec(acks),
        stop: None,
    })
}

// The flight at this place is delivered.
fn mark(flights: &mut Items<Sent>, at: usize)
    requires { at < length flights.old }
    ensures { (sent : Sent) → slice_get flights.old at ≡ Some sent → flights.new ≡ slice_set flights.old at (record sent { delivered = true }) }
{
    flights.at_mut(at).delivered = true;
}

/// The forms of a flight arrive in order at its destination, each committed before the next, until one is stopped; once all
/// arrived the flight is marked. The core and the store are the destination's. A failed append or sync stops the delivery,
/// and leaves the log broken and the form's entry pending.
pub fn deliver<V: Vault>(
    core: &mut ClusterCore,
    alloc: Global,
    own: &mut V,
    flights: &mut Items<Sent>,
    flight: u32,
) -> Result<Reply, CoreError>
    requires { (way : Route) × (m : Machine) × IsSink way core.old.own (V.contents own.old) core.old flights.old flight m }
    ensures does { (way : Route) (m : Machine) → IsSink way core.old.own (V.contents own.old) core.old flights.old flight m
        → FliesOr way core.old.own (event.Deliver flight) m (V.contents own.old) core.old flights.old (V.contents own.new) core.new flights.new result }
    ensures counts { Counts (V.tally own.old) (V.tally own.new) }
    ensures told { IfOk result (λ reply. FaultTold core.old.own reply (V.tally own.old) (V.tally own.new)) }
{
    let Some(at) = flight_place(flights, flight) else {
        return Ok(Reply::Refused(Refusal::NoFlight));
    };
    let sent = sent_at(flights, at);
    let forms = sent.forms.as_slice();
    let done = match arrive_all(core, alloc, own, sent.peer, sent.synchronous, forms) {
        Ok(done) => done,
        Err(why) => return Err(why),
    };
    let Delivered {
        arrived,
        acks,
        stop,
    } = done;
    match stop {
        Some(cause) => Ok(Reply::Stopped {
            index: arrived,
            acks,
            cause,
        }),
        None => {
            mark(flights, at);
            Ok(Reply::All { arrived, acks })
        }
    }
}
