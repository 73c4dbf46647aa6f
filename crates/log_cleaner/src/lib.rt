//! Whether a server's log may go: when no peer still has to read it and no region has an unflushed entry in it (Reference Guide,
//! "WAL Splitting" and "Region Server", log cleaning; that peers are asked before regions is this project's own rule).
#![tactic(auto)]

mod sweep;

pub use sweep::{LogUse, PeerUse, RegionUse, Sweep, may_sweep};
