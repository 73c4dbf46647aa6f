use rep_model::Standing;
use rep_types::{Kind, Names, PeerId};

/// A peer and the tables that it covers (HBase Reference Guide, Cluster Replication). A removed peer's number isn't used
/// again.
#[derive(Drop)]
pub struct Peer {
    pub number: PeerId,
    pub kind: Kind,
    pub tables: Names,
    pub standing: Standing,
}
