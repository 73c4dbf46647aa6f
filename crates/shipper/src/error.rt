use thiserror::Error;

/// Why a flight isn't lost or confirmed; the first that holds, in this order.
#[derive(Clone, Copy, Debug, PartialEq, Eq, Error)]
pub enum FlightError {
    /// No flight has the number.
    #[error("no such flight")]
    NoFlight,
    /// It isn't the outstanding flight of its queue, which is `now`.
    #[error("stale")]
    Stale { now: Option<u32> },
    /// It was never marked as delivered whole.
    #[error("flight {flight} isn't delivered")]
    NotDelivered { flight: u32 },
}
