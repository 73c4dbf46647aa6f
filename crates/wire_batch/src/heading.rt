use rep_types::{Cluster, PeerId, ServerId};

/// The fields of a batch before its forms: the length of the whole batch, whose it is, and the number of its forms.
#[derive(Clone, Copy)]
pub struct Heading {
    pub length: u32,
    pub cluster: Cluster,
    pub peer: PeerId,
    pub server: ServerId,
    pub flight: u32,
    pub count: u16,
}
