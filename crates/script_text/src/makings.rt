// The commands of words with one form.
ghost use Rattle.std.specs.Prelude.{◌≡◌};
ghost use Rattle.script_text.specs.Makings.{cluster_command, server_command, region_command, peer_command, queue_command, place_command, flight_command, alone_command};

use crate::Command;
use crate::head::{Alone, OnCluster, OnFlight, OnPeer, OnPlace, OnQueue, OnRegion, OnServer};
use rep_types::{Cluster, Event, PeerId, RegionId, ServerId};

pub fn cluster_command(word: OnCluster, cluster: Cluster) -> Command
    ensures { result ≡ cluster_command word cluster }
{
    match word {
        OnCluster::TransitEnd => Command::Single(Event::TransitEnd { cluster }),
        OnCluster::MakeFolder => Command::Single(Event::MakeFolder { cluster }),
        OnCluster::PromoteBegin => Command::Single(Event::PromoteBegin { cluster }),
        OnCluster::Replay => Command::Single(Event::Replay { cluster }),
        OnCluster::PromoteEnd => Command::Single(Event::PromoteEnd { cluster }),
        OnCluster::OldQueues => Command::Single(Event::OldQueues { cluster }),
        OnCluster::MigrateBegin => Command::Single(Event::MigrateBegin { cluster }),
        OnCluster::MigrateEnd => Command::Single(Event::MigrateEnd { cluster }),
        OnCluster::SyncAll => Command::SyncAll { cluster },
        OnCluster::Promote => Command::Promote { cluster },
        OnCluster::Queues => Command::Queues { cluster },
        OnCluster::Regions => Command::Regions { cluster },
    }
}

pub fn server_command(word: OnServer, cluster: Cluster, server: ServerId) -> Command
    ensures { result ≡ server_command word cluster server }
{
    Command::Single(match word {
        OnServer::Server => Event::Server { cluster, server },
        OnServer::Sync => Event::Sync { cluster, server },
        OnServer::Roll => Event::Roll { cluster, server },
        OnServer::Crash => Event::Crash { cluster, server },
        OnServer::Seal => Event::Seal { cluster, server },
        OnServer::Sweep => Event::Sweep { cluster, server },
        OnServer::SweepRemote => Event::SweepRemote { cluster, server },
        OnServer::Mirror => Event::Mirror { cluster, server },
    })
}

pub fn region_command(word: OnRegion, cluster: Cluster, region: RegionId) -> Command
    ensures { result ≡ region_command word cluster region }
{
    match word {
        OnRegion::OpenEnd => Command::Single(Event::OpenEnd { cluster, region }),
        OnRegion::CloseBegin => Command::Single(Event::CloseBegin { cluster, region }),
        OnRegion::CloseEnd => Command::Single(Event::CloseEnd { cluster, region }),
        OnRegion::Recover => Command::Single(Event::Recover { cluster, region }),
        OnRegion::Flush => Command::Single(Event::Flush { cluster, region }),
        OnRegion::Compact => Command::Single(Event::Compact { cluster, region }),
        OnRegion::Close => Command::Close { cluster, region },
    }
}

pub fn peer_command(word: OnPeer, cluster: Cluster, peer: PeerId) -> Command
    ensures { result ≡ peer_command word cluster peer }
{
    Command::Single(match word {
        OnPeer::Enable => Event::Enable { cluster, peer },
        OnPeer::Disable => Event::Disable { cluster, peer },
        OnPeer::Remove => Event::Remove { cluster, peer },
        OnPeer::MakeSerial => Event::MakeSerial { cluster, peer },
    })
}

pub fn queue_command(word: OnQueue, cluster: Cluster, peer: PeerId, server: ServerId) -> Command
    ensures { result ≡ queue_command word cluster peer server }
{
    match word {
        OnQueue::Ship => Command::Ship {
            cluster,
            peer,
            server,
        },
        OnQueue::Migrate => Command::Single(Event::Migrate {
            cluster,
            peer,
            server,
        }),
    }
}

pub fn place_command(word: OnPlace, cluster: Cluster, region: RegionId, server: ServerId) -> Command
    ensures { result ≡ place_command word cluster region server }
{
    match word {
        OnPlace::OpenBegin => Command::Single(Event::OpenBegin {
            cluster,
            region,
            server,
        }),
        OnPlace::Open => Command::Open {
            cluster,
            region,
            server,
        },
        OnPlace::Move => Command::Move {
            cluster,
            region,
            server,
        },
    }
}

pub fn flight_command(word: OnFlight, flight: u32) -> Command
    ensures { result ≡ flight_command word flight }
{
    Command::Single(match word {
        OnFlight::Deliver => Event::Deliver { flight },
        OnFlight::Lose => Event::Lose { flight },
        OnFlight::Confirm => Event::Confirm { flight },
    })
}

pub fn alone_command(word: Alone) -> Command
    ensures { result ≡ alone_command word }
{
    match word {
        Alone::Drain => Command::Drain,
        Alone::Status => Command::Status,
        Alone::Divider => Command::Divider,
    }
}
