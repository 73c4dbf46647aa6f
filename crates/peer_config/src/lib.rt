//! The peers of a cluster: what each covers, whether it is enabled, and what it ships of an entry.
#![tactic(auto)]

mod error;
mod forming;
mod peer;
mod peers;

pub use error::PeerError;
pub use peer::Peer;
pub use peers::Peers;
