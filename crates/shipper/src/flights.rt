ghost use Rattle.std.specs.Prelude.{◌≡◌, ◌+◌, ◌-◌, ◌^◌, ◌<◌, [], None, Some, length, IfOk, OnOk, OnErr, IsSome, IfSome};
ghost use Rattle.std.specs.Option.{option_map};
ghost use Rattle.wire_batch.specs.Batches.{IsSendable};
ghost use Rattle.shipper.specs.Queues.{queue_id, queue_of, outstanding_of};
ghost use Rattle.shipper.specs.Flights.{next_flight, numbered, with_flight, flight_of, queue_at, with_mark, lose_refusal, is_delivered, undelivered, confirm_refusal, ended, Answers};

use crate::FlightError;
use crate::queue::{Outstanding, QueueId, end, outstanding_of};
use crate::reserve::{add, reserve};
use crate::sent::Sent;
use rep_types::{Cluster, Memory, PeerId, ServerId};
use std::alloc::Global;
use std::marker::Model;
use wire_batch::Batch;

/// Every flight that was sent, in the order of their numbers, which begin with 1. The batch of each is kept once, as its
/// bytes.
#[derive(Drop)]
pub struct Flights {
    sent: Sent,
    delivered: Vec<bool>,
    outstanding: Vec<Outstanding>,
}

impl Model for Flights {
    ghost use Rattle.shipper.specs.Flights.{FlightsValue, IsFlights};

    ghost Value = { FlightsValue };

    ghost view = { λ f. record { batches = f.sent; delivered = f.delivered.items; outstanding = f.outstanding.items } };

    ghost invariant = { λ f. IsFlights (record { batches = f.sent; delivered = f.delivered.items; outstanding = f.outstanding.items }) };
}

impl Flights {
    /// None was sent.
    pub fn new(alloc: Global) -> Flights
        ensures { result ≡ record { batches = []; delivered = []; outstanding = [] } }
    {
        Flights {
            sent: Sent::new(alloc),
            delivered: Vec::new(alloc),
            outstanding: Vec::new(alloc),
        }
    }

    /// How many were sent, which is the number of the last.
    pub fn len(&self) -> usize
        ensures { result ≡ length self.now.batches }
    {
        self.sent.len()
    }

    /// Sends a batch of a queue that has no outstanding flight: it gets the next number, which is answered, and is its queue's
    /// outstanding flight from now on. A failure changes nothing.
    pub fn send(&mut self, alloc: Global, batch: Batch) -> Result<u32, Memory>
        requires room { next_flight self.old < 2 ^ 32 }
        requires sendable { IsSendable (numbered (next_flight self.old) batch) }
        requires free { outstanding_of (queue_of batch) self.old.outstanding ≡ None }
        ensures number { IfOk result (λ flight. flight ≡ next_flight self.old) }
        ensures ok { OnOk result (self.new ≡ with_flight batch self.old) }
        ensures err { OnErr result (self.new ≡ self.old) }
    {
        let flight = self.sent.len() as u32 + 1;
        let queue = QueueId {
            cluster: batch.cluster,
            peer: batch.peer,
            server: batch.server,
        };
        let mut batch = batch;
        batch.flight = flight;
        reserve(&mut self.delivered)?;
        reserve(&mut self.outstanding)?;
        self.sent.push(alloc, &batch)?;
        add(&mut self.delivered, false);
        add(&mut self.outstanding, Outstanding { queue, flight });
        Ok(flight)
    }

    /// The batch that was sent under the number; none exactly where no flight has it.
    pub fn batch(&self, alloc: Global, flight: u32) -> Result<Option<Batch>, Memory>
        ensures { IfOk result (λ found. found ≡ flight_of flight self.now.batches) }
    {
        if flight == 0 {
            Ok(None)
        } else {
            self.sent.get(alloc, flight as usize - 1)
        }
    }

    fn queue(&self, flight: u32) -> Option<QueueId>
        ensures { result ≡ queue_at flight self.now.batches }
    {
        if flight == 0 {
            None
        } else {
            self.sent.queue(flight as usize - 1)
        }
    }

    /// All forms of the flight arrived.
    pub fn mark_all(&mut self, flight: u32)
        requires { IsSome (flight_of flight self.old.batches) }
        ensures { self.new ≡ with_mark flight self.old }
    {
        self.delivered[flight as usize - 1] = true;
    }

    /// The outstanding flight of a queue, if it has one.
    pub fn outstanding(&self, cluster: Cluster, peer: PeerId, server: ServerId) -> Option<u32>
        ensures value { result ≡ outstanding_of (queue_id cluster peer server) self.now.outstanding }
        // It is a flight of that queue.
        ensures known { IfSome result (λ flight. queue_at flight self.now.batches ≡ Some (queue_id cluster peer server)) }
    {
        let queue = QueueId {
            cluster,
            peer,
            server,
        };
        outstanding_of(&queue, &self.outstanding)
    }

    // The queue whose outstanding flight this is.
    fn current(&self, flight: u32) -> Result<QueueId, FlightError>
        ensures answers { Answers (lose_refusal flight self.now) result }
        ensures queue { IfOk result (λ queue. queue_at flight self.now.batches ≡ Some queue) }
    {
        let Some(queue) = self.queue(flight) else {
            return Err(FlightError::NoFlight);
        };
        let now = outstanding_of(&queue, &self.outstanding);
        match now {
            Some(number) if number == flight => Ok(queue),
            _ => Err(FlightError::Stale { now }),
        }
    }

    fn is_delivered(&self, flight: u32) -> bool
        ensures { result ≡ is_delivered flight self.now }
    {
        let at = (flight as usize).saturating_sub(1);
        self.delivered.get(at).copied().unwrap_or(false)
    }

    fn whole(&self, flight: u32) -> Result<(), FlightError>
        ensures { Answers (undelivered flight self.now) result }
    {
        if self.is_delivered(flight) {
            Ok(())
        } else {
            Err(FlightError::NotDelivered { flight })
        }
    }

    /// The refusal of `lose`.
    pub fn may_lose(&self, flight: u32) -> Result<(), FlightError>
        ensures { Answers (lose_refusal flight self.now) result }
    {
        self.current(flight)?;
        Ok(())
    }

    /// Ends the outstanding flight of a queue: it wasn't recorded. It may still be delivered.
    pub fn lose(&mut self, flight: u32) -> Result<(), FlightError>
        ensures answers { Answers (lose_refusal flight self.old) result }
        ensures ok { OnOk result (self.new ≡ ended flight self.old) }
        ensures err { OnErr result (self.new ≡ self.old) }
    {
        let queue = self.current(flight)?;
        end(&mut self.outstanding, &queue);
        Ok(())
    }

    /// The refusal of `confirm`.
    pub fn may_confirm(&self, flight: u32) -> Result<(), FlightError>
        ensures { Answers (confirm_refusal flight self.now) result }
    {
        self.current(flight)?;
        self.whole(flight)
    }

    /// Ends the outstanding flight of a queue, all of whose forms arrived.
    pub fn confirm(&mut self, flight: u32) -> Result<(), FlightError>
        ensures answers { Answers (confirm_refusal flight self.old) result }
        ensures ok { OnOk result (self.new ≡ ended flight self.old) }
        ensures err { OnErr result (self.new ≡ self.old) }
    {
        let queue = self.current(flight)?;
        self.whole(flight)?;
        end(&mut self.outstanding, &queue);
        Ok(())
    }
}
