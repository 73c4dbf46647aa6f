// The events of a command, one after the other.
ghost use Rattle.std.specs.Prelude.{◌≡◌, ◌<◌, ◌≤◌, false, List, length, map, slice_get, IfOk, IfSome};
ghost use Rattle.std.specs.Option.{option_map};
ghost use Rattle.rep_types.specs.declared.record.Record.{Record};
ghost use Rattle.rep_model.specs.declared.machine.Machine.{Machine};
ghost use Rattle.script_text.specs.Drains.{live_servers};
ghost use Rattle.script_text.specs.Due.{reply_in, goes_on, due};
ghost use Rattle.script_text.specs.Expansion.{passes, flight_sent, only_if, asks_state, next_event};

use crate::Command;
use rep_types::{Cluster, Duplicate, Event, Memory, PeerId, RegionId, Reply, ServerId};
use std::alloc::Global;

const BATCH: u16 = 25;

// Whether the reply is `ok` or `all`.
fn passes(reply: &Reply) -> bool
    ensures { result ≡ passes reply.now }
{
    !matches!(
        reply,
        Reply::Stopped { .. } | Reply::StoreFault { .. } | Reply::Refused(_)
    )
}

// Flights count from 1.
fn flight_sent(reply: &Reply) -> Option<u32>
    ensures { result ≡ flight_sent reply.now }
{
    match reply {
        Reply::Sent { flight, .. } if 0 < *flight => Some(*flight),
        _ => None,
    }
}

fn open_event(
    cluster: Cluster,
    region: RegionId,
    server: ServerId,
    replies: &[Reply],
) -> Option<Event>
    ensures event { result ≡ next_event (Command.Open cluster region server) replies.now }
    ensures few { IfSome result (λ _. length replies.now < 4) }
{
    match replies {
        [] => Some(Event::OpenBegin {
            cluster,
            region,
            server,
        }),
        [begun] if passes(begun) => Some(Event::OpenEnd { cluster, region }),
        _ => None,
    }
}

fn close_event(cluster: Cluster, region: RegionId, replies: &[Reply]) -> Option<Event>
    ensures event { result ≡ next_event (Command.Close cluster region) replies.now }
    ensures few { IfSome result (λ _. length replies.now < 4) }
{
    match replies {
        [] => Some(Event::CloseBegin { cluster, region }),
        [begun] if passes(begun) => Some(Event::CloseEnd { cluster, region }),
        _ => None,
    }
}

fn move_event(
    cluster: Cluster,
    region: RegionId,
    server: ServerId,
    replies: &[Reply],
) -> Option<Event>
    ensures event { result ≡ next_event (Command.Move cluster region server) replies.now }
    ensures few { IfSome result (λ _. length replies.now < 4) }
{
    match replies {
        [] => Some(Event::CloseBegin { cluster, region }),
        [begun] if passes(begun) => Some(Event::CloseEnd { cluster, region }),
        [_, closed] if passes(closed) => Some(Event::OpenBegin {
            cluster,
            region,
            server,
        }),
        [_, _, begun] if passes(begun) => Some(Event::OpenEnd { cluster, region }),
        _ => None,
    }
}

fn ship_event(cluster: Cluster, peer: PeerId, server: ServerId, replies: &[Reply]) -> Option<Event>
    ensures event { result ≡ next_event (Command.Ship cluster peer server) replies.now }
    ensures few { IfSome result (λ _. length replies.now < 4) }
{
    match replies {
        [] => Some(Event::Send {
            cluster,
            peer,
            server,
            most: BATCH,
        }),
        [sent] => deliver_event(sent),
        [sent, arrived] => confirm_event(sent, arrived),
        _ => None,
    }
}

fn deliver_event(sent: &Reply) -> Option<Event>
    ensures { result ≡ option_map Event.Deliver (flight_sent sent.now) }
{
    match flight_sent(sent) {
        Some(flight) => Some(Event::Deliver { flight }),
        None => None,
    }
}

fn confirm_event(sent: &Reply, arrived: &Reply) -> Option<Event>
    ensures { result ≡ only_if (passes arrived.now) (option_map Event.Confirm (flight_sent sent.now)) }
{
    if !passes(arrived) {
        return None;
    }
    match flight_sent(sent) {
        Some(flight) => Some(Event::Confirm { flight }),
        None => None,
    }
}

// Whether there is no reply yet, or the last one is `ok` or `all`.
fn goes_on(replies: &[Reply]) -> bool
    ensures { (rs : List Record) → replies.now ≡ map reply_in rs → result ≡ goes_on rs }
{
    match replies.split_last() {
        Some((last, _)) => passes(last),
        None => true,
    }
}

// A sync of the server at this place, where there is one.
fn sync_at(cluster: Cluster, live: &[ServerId], at: usize) -> Option<Event>
    ensures event { result ≡ option_map (Event.Sync cluster) (slice_get live.now at) }
    ensures within { IfSome result (λ _. at < length live.now) }
{
    match live.get(at) {
        Some(server) => Some(Event::Sync {
            cluster,
            server: *server,
        }),
        None => None,
    }
}

/// The next event of `syncall`, after the replies to its earlier ones: `live` are the servers that lived when it began.
/// It goes on after `ok` and `all` alone, and each server is synced once.
pub fn sync_all_event(cluster: Cluster, live: &[ServerId], replies: &[Reply]) -> Option<Event>
    ensures event { (m : Machine) (rs : List Record) → live.now ≡ live_servers cluster m
        → replies.now ≡ map reply_in rs → result ≡ due (Command.SyncAll cluster) m rs }
    ensures few { length live.now ≤ 64 → IfSome result (λ _. length replies.now < 64) }
{
    if goes_on(replies) {
        sync_at(cluster, live, replies.len())
    } else {
        None
    }
}

impl Command {
    /// The command's next event, after the replies to its earlier ones. A command goes on after `ok` and `all` alone.
    pub fn next_event(&self, alloc: Global, replies: &[Reply]) -> Result<Option<Event>, Memory>
        requires { asks_state self.now ≡ false }
        ensures event { IfOk result (λ made. made ≡ next_event self.now replies.now) }
        ensures few { IfOk result (λ made. IfSome made (λ _. length replies.now < 4)) }
    {
        Ok(match self {
            Command::Single(event) if replies.is_empty() => Some(event.copy(alloc)?),
            Command::Single(_) => None,
            Command::Open {
                cluster,
                region,
                server,
            } => open_event(*cluster, *region, *server, replies),
            Command::Close { cluster, region } => close_event(*cluster, *region, replies),
            Command::Move {
                cluster,
                region,
                server,
            } => move_event(*cluster, *region, *server, replies),
            Command::Ship {
                cluster,
                peer,
                server,
            } => ship_event(*cluster, *peer, *server, replies),
            _ => None,
        })
    }
}
