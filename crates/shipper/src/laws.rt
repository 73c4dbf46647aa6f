ghost use Rattle.std.specs.Prelude.{◌≡◌, ℕ, false, None, Some};
ghost use Rattle.wire_batch.specs.declared.batch.Batch.{Batch};
ghost use Rattle.shipper.specs.Flights.{FlightsValue, next_flight, numbered, with_flight, flight_of, queue_at, ended};
ghost use Rattle.shipper.specs.Queues.{queue_of, same_queue, outstanding_of};
ghost use Rattle.shipper.specs.declared.queue.QueueId.{QueueId};

/// What was sent stays, and a queue has at most one outstanding flight: the one that was sent of it last, until it ends.
pub fn one_flight_a_queue()
    ensures last { (b : Batch) (f : FlightsValue) → flight_of (next_flight f) (with_flight b f).batches ≡ Some (numbered (next_flight f) b) }
    ensures stays { (n : ℕ) (b sent : Batch) (f : FlightsValue) → flight_of n f.batches ≡ Some sent → flight_of n (with_flight b f).batches ≡ Some sent }
    // What is sent of a queue without an outstanding flight is its outstanding flight.
    ensures begins { (b : Batch) (f : FlightsValue) → outstanding_of (queue_of b) f.outstanding ≡ None
        → outstanding_of (queue_of b) (with_flight b f).outstanding ≡ Some (next_flight f) }
    // The other queues keep theirs.
    ensures beside { (b : Batch) (f : FlightsValue) (other : QueueId) → same_queue other (queue_of b) ≡ false
        → outstanding_of other (with_flight b f).outstanding ≡ outstanding_of other f.outstanding }
    ensures ends { (n : ℕ) (f : FlightsValue) (queue : QueueId) → queue_at n f.batches ≡ Some queue → outstanding_of queue (ended n f).outstanding ≡ None }
    ensures others { (n : ℕ) (f : FlightsValue) (queue other : QueueId) → queue_at n f.batches ≡ Some queue → same_queue other queue ≡ false
        → outstanding_of other (ended n f).outstanding ≡ outstanding_of other f.outstanding }
{}
