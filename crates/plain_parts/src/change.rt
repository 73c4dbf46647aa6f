// How servers, regions, peers, queues and flights change in place.
ghost use Rattle.std.specs.Prelude.{◌≡◌, ◌++◌, Some, None, find, OnOk, IfSome, MatchOption};
ghost use Rattle.rep_model.specs.Keyed.{replace};
ghost use Rattle.rep_model.specs.State.{is_server, is_region, is_peer, is_queue};
ghost use Rattle.rep_model.specs.LogEvents.{broken, emptied};
ghost use Rattle.rep_model.specs.RegionEvents.{moved, with_barrier, opened};
ghost use Rattle.rep_model.specs.Changes.{takes_pending};

use crate::copies::add_commits;
use crate::lookup::{peer_place, queue_place, region_place, server_place};
use rep_model::{Commit, Hosted, Peer, Pending, Queue, Server};
use rep_types::{Items, Memory, PeerId, PlaceOf, RegionId, ServerId};
use std::alloc::Global;
use std::mem;

/// The entry goes last on the server's pending list, whose log is whole or broken from now on.
pub fn append_pending(
    servers: &mut Items<Server>,
    number: ServerId,
    pending: Pending,
    whole: bool,
) -> Result<(), Memory>
    ensures { OnOk result (IfSome (find (is_server number) servers.old) (λ x.
        servers.new ≡ replace (is_server number) (takes_pending pending whole x) servers.old)) }
{
    let Some(at) = server_place(servers, number) else {
        return Ok(());
    };
    let server = servers.at_mut(at);
    server.pending.push(pending)?;
    server.whole = whole;
    Ok(())
}

/// The server's pending list, which is empty from now on.
pub fn take_pending(alloc: Global, servers: &mut Items<Server>, number: ServerId) -> Items<Pending>
    ensures list { IfSome (find (is_server number) servers.old) (λ x. result ≡ x.pending) }
    ensures left { IfSome (find (is_server number) servers.old) (λ x.
        servers.new ≡ replace (is_server number) (emptied x) servers.old) }
{
    let Some(at) = server_place(servers, number) else {
        return Items::new(alloc);
    };
    let server = servers.at_mut(at);
    mem::replace(&mut server.pending, Items::new(alloc))
}

/// The server's log is broken from now on.
pub fn break_log(servers: &mut Items<Server>, number: ServerId)
    ensures { IfSome (find (is_server number) servers.old) (λ x.
        servers.new ≡ replace (is_server number) (broken x) servers.old) }
{
    if let Some(at) = server_place(servers, number) {
        servers.at_mut(at).whole = false;
    }
}

/// The region moves.
pub fn set_place(regions: &mut Items<Hosted>, number: RegionId, place: PlaceOf)
    ensures { IfSome (find (is_region number) regions.old) (λ x.
        regions.new ≡ replace (is_region number) (moved place x) regions.old) }
{
    if let Some(at) = region_place(regions, number) {
        regions.at_mut(at).place = place;
    }
}

// The number goes behind the others, once where it comes again.
#[tactic(auto, unfolding(rep_model::specs::Keyed::given))]
fn add_barrier(opens: &mut Items<u64>, barrier: u64) -> Result<(), Memory>
    ensures { OnOk result (opens.new ≡ with_barrier barrier opens.old) }
{
    match opens.get(opens.len().saturating_sub(1)) {
        Some(last) => {
            if *last == barrier {
                return Ok(());
            }
        }
        None => {}
    }
    opens.push(barrier)
}

/// The region begins to open at a server, with this barrier.
pub fn open_region(
    regions: &mut Items<Hosted>,
    number: RegionId,
    server: ServerId,
    barrier: u64,
) -> Result<(), Memory>
    ensures { OnOk result (IfSome (find (is_region number) regions.old) (λ x.
        regions.new ≡ replace (is_region number) (opened server barrier x) regions.old)) }
{
    let Some(at) = region_place(regions, number) else {
        return Ok(());
    };
    let hosted = regions.at_mut(at);
    add_barrier(&mut hosted.opens, barrier)?;
    hosted.place = PlaceOf::Opening(server);
    Ok(())
}

/// The queue's outstanding flight is this one, or none.
pub fn set_flight(queues: &mut Items<Queue>, peer: PeerId, server: ServerId, flight: Option<u32>)
    ensures { MatchOption (find (is_queue peer server) queues.old) (queues.new ≡ queues.old) (λ x.
        queues.new ≡ replace (is_queue peer server) (record x { flight = flight }) queues.old) }
{
    if let Some(at) = queue_place(queues, peer, server) {
        queues.at_mut(at).flight = flight;
    }
}

/// These entries are recorded behind those that were.
pub fn add_recorded(
    peers: &mut Items<Peer>,
    alloc: Global,
    number: PeerId,
    entries: &[Commit],
) -> Result<(), Memory>
    ensures { OnOk result (MatchOption (find (is_peer number) peers.old) (peers.new ≡ peers.old) (λ x.
        peers.new ≡ replace (is_peer number) (record x { recorded = x.recorded ++ entries.now }) peers.old)) }
{
    if let Some(at) = peer_place(peers, number) {
        add_commits(alloc, &mut peers.at_mut(at).recorded, entries)?;
    }
    Ok(())
}
