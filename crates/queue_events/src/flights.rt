ghost use Rattle.std.specs.Prelude.{◌≡◌};
ghost use Rattle.std.specs.Option.{option_copied};
ghost use Rattle.queue_events.specs.Flights.{sent_at};
ghost use Rattle.rep_model.specs.QueueEvents.{is_out};

use cluster_core::Sent;
use rep_types::Items;

/// The flight of this number. Flights are numbered from 1 in the order in which they were sent.
pub fn find_sent(flights: &Items<Sent>, number: u32) -> Option<&Sent>
    ensures { option_copied result ≡ sent_at number flights.now }
{
    if number == 0 {
        None
    } else {
        flights.get(number as usize - 1)
    }
}

/// Whether this flight is the outstanding one.
pub fn is_out(outstanding: Option<u32>, flight: u32) -> bool
    ensures { result ≡ is_out flight outstanding }
{
    match outstanding {
        None => false,
        Some(number) => number == flight,
    }
}
