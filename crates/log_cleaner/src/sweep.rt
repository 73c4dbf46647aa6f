ghost use Rattle.std.specs.Prelude.{◌≡◌, Some};
ghost use Rattle.log_cleaner.specs.Needs.{is_before, peer_needs, region_needs, lower_of, needy_peer, needy_region, needed_by};

use last_ids::LastIds;
use rep_types::{Needer, PeerId, Place, RegionId};

/// A log of a server: its number, the end of its whole frames in bytes, and the greatest sequence id of each region in it.
#[derive(Drop)]
pub struct LogUse {
    pub log: u32,
    pub end: u64,
    pub last: LastIds,
}

/// A peer, and the place of its queue for that server.
#[derive(Clone, Copy)]
pub struct PeerUse {
    pub peer: PeerId,
    pub place: Place,
}

/// A region, and the sequence id up to which it is flushed.
#[derive(Clone, Copy)]
pub struct RegionUse {
    pub region: RegionId,
    pub flushed: u64,
}

/// Whether a log may go, or who needs it.
#[derive(Clone, Copy)]
pub enum Sweep {
    Go,
    Needed { by: Needer },
}

fn is_before(place: &Place, log: u32, offset: u64) -> bool
    ensures { result ≡ is_before place.now log offset }
{
    place.log < log || (place.log == log && place.offset < offset)
}

fn peer_needs(log: &LogUse, peer: &PeerUse) -> bool
    ensures { result ≡ peer_needs log.now peer.now }
{
    log.end != 0 && is_before(&peer.place, log.log, log.end)
}

fn region_needs(log: &LogUse, region: &RegionUse) -> bool
    ensures { result ≡ region_needs log.now region.now }
{
    region.flushed < log.last.last(region.region)
}

fn lower_peer(lowest: Option<PeerId>, peer: PeerId) -> PeerId
    ensures { result ≡ lower_of peer lowest }
{
    match lowest {
        Some(other) if other.number() < peer.number() => other,
        _ => peer,
    }
}

fn lower_region(lowest: Option<RegionId>, region: RegionId) -> RegionId
    ensures { result ≡ lower_of region lowest }
{
    match lowest {
        Some(other) if other.number() < region.number() => other,
        _ => region,
    }
}

fn needy_peer(log: &LogUse, peers: &[PeerUse]) -> Option<PeerId>
    ensures { result ≡ needy_peer log.now peers.now }
{
    let mut lowest = None;
    for peer in peers {
        if peer_needs(log, peer) {
            lowest = Some(lower_peer(lowest, peer.peer));
        }
    }
    lowest
}

fn needy_region(log: &LogUse, regions: &[RegionUse]) -> Option<RegionId>
    ensures { result ≡ needy_region log.now regions.now }
{
    let mut lowest = None;
    for region in regions {
        if region_needs(log, region) {
            lowest = Some(lower_region(lowest, region.region));
        }
    }
    lowest
}

/// Go where nobody needs the log: no peer's place is before its end, unless that is 0, and no region has an entry above its
/// flushed sequence id in it. Else the peer with the lowest number that needs it, or, where none does, the region with the
/// lowest. Takes no memory, and looks at each peer and region once.
pub fn may_sweep(log: &LogUse, peers: &[PeerUse], regions: &[RegionUse]) -> Sweep
    ensures { result ≡ needed_by (needy_peer log.now peers.now) (needy_region log.now regions.now) }
{
    if let Some(peer) = needy_peer(log, peers) {
        return Sweep::Needed {
            by: Needer::Peer(peer),
        };
    }
    match needy_region(log, regions) {
        Some(region) => Sweep::Needed {
            by: Needer::Region(region),
        },
        None => Sweep::Go,
    }
}
