// Where servers, regions, peers, queues and flights stand in the state, by number.
ghost use Rattle.std.specs.Prelude.{◌≡◌, position, find, IfSome};
ghost use Rattle.std.specs.Option.{option_copied};
ghost use Rattle.rep_model.specs.State.{is_server, is_region, is_peer, is_queue, is_flight};
ghost use Rattle.rep_model.specs.Places.{is_named, serves};

use crate::places::serves;
use rep_model::{Flight, Hosted, Peer, Queue, Server, Table};
use rep_types::{Items, Key, Name, PeerId, RegionId, ServerId};

pub fn server_place(servers: &Items<Server>, number: ServerId) -> Option<usize>
    ensures { result ≡ position (is_server number) servers.now }
{
    servers
        .as_slice()
        .iter()
        .position(|server| server.number == number)
}

pub fn find_server(servers: &Items<Server>, number: ServerId) -> Option<&Server>
    ensures found { option_copied result ≡ find (is_server number) servers.now }
    ensures number { IfSome result (λ x. x.now.number ≡ number) }
{
    servers
        .as_slice()
        .iter()
        .find(|server| server.number == number)
}

pub fn region_place(regions: &Items<Hosted>, number: RegionId) -> Option<usize>
    ensures { result ≡ position (is_region number) regions.now }
{
    regions
        .as_slice()
        .iter()
        .position(|hosted| hosted.region.number == number)
}

pub fn find_region(regions: &Items<Hosted>, number: RegionId) -> Option<&Hosted>
    ensures found { option_copied result ≡ find (is_region number) regions.now }
    ensures number { IfSome result (λ x. x.now.region.number ≡ number) }
{
    regions
        .as_slice()
        .iter()
        .find(|hosted| hosted.region.number == number)
}

pub fn peer_place(peers: &Items<Peer>, number: PeerId) -> Option<usize>
    ensures { result ≡ position (is_peer number) peers.now }
{
    peers
        .as_slice()
        .iter()
        .position(|peer| peer.number == number)
}

pub fn find_peer(peers: &Items<Peer>, number: PeerId) -> Option<&Peer>
    ensures found { option_copied result ≡ find (is_peer number) peers.now }
    ensures number { IfSome result (λ x. x.now.number ≡ number) }
{
    peers.as_slice().iter().find(|peer| peer.number == number)
}

pub fn queue_place(queues: &Items<Queue>, peer: PeerId, server: ServerId) -> Option<usize>
    ensures { result ≡ position (is_queue peer server) queues.now }
{
    queues
        .as_slice()
        .iter()
        .position(|queue| queue.peer == peer && queue.server == server)
}

pub fn find_queue(queues: &Items<Queue>, peer: PeerId, server: ServerId) -> Option<&Queue>
    ensures found { option_copied result ≡ find (is_queue peer server) queues.now }
    ensures peer { IfSome result (λ x. x.now.peer ≡ peer) }
    ensures server { IfSome result (λ x. x.now.server ≡ server) }
{
    queues
        .as_slice()
        .iter()
        .find(|queue| queue.peer == peer && queue.server == server)
}

pub fn flight_place(flights: &Items<Flight>, number: u32) -> Option<usize>
    ensures { result ≡ position (is_flight number) flights.now }
{
    flights
        .as_slice()
        .iter()
        .position(|flight| flight.number == number)
}

pub fn find_flight(flights: &Items<Flight>, number: u32) -> Option<&Flight>
    ensures found { option_copied result ≡ find (is_flight number) flights.now }
    ensures number { IfSome result (λ x. x.now.number ≡ number) }
{
    flights
        .as_slice()
        .iter()
        .find(|flight| flight.number == number)
}

pub fn find_table<'a>(tables: &'a Items<Table>, name: &Name) -> Option<&'a Table>
    ensures { option_copied result ≡ find (is_named name.now) tables.now }
{
    tables.as_slice().iter().find(|table| table.name == *name)
}

/// The region that isn't Gone and holds the row.
pub fn find_serving<'a>(regions: &'a Items<Hosted>, table: &Name, row: &Key) -> Option<&'a Hosted>
    ensures { option_copied result ≡ find (serves table.now row.now) regions.now }
{
    regions
        .as_slice()
        .iter()
        .find(|hosted| serves(hosted, table, row))
}
