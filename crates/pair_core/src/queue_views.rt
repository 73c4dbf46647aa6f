// What is seen of a queue.
ghost use Rattle.std.specs.Prelude.{◌≡◌, ◌-◌, true};
ghost use Rattle.rep_vault.specs.Contents.{Contents};
ghost use Rattle.rep_model.specs.State.{Route, of};
ghost use Rattle.rep_model.specs.Words.{is_in};
ghost use Rattle.rep_model.specs.declared.machine.Machine.{Machine};
ghost use Rattle.cluster_core.specs.Does.{Reached};
ghost use Rattle.cluster_core.specs.Lines.{shelf_length};
ghost use Rattle.cluster_core.specs.Stands.{Stands};
ghost use Rattle.pair_core.specs.InMemory.{line_view, line_seen};
ghost use Rattle.pair_core.specs.Views.{queue_seen};

use cluster_core::{ClusterCore, Line, Shelf, added_peer, find_line, shelf_length};
use rep_types::{Items, PeerId, QueueView, ServerId};

// How many of the server's commits stand behind the queue's head.
fn left(shelves: &Items<Shelf>, line: &Line) -> u64
    ensures { result ≡ shelf_length line.now.server shelves.now - line.now.at }
{
    shelf_length(shelves, line.server).saturating_sub(line.at)
}

fn line_view(shelves: &Items<Shelf>, line: &Line) -> QueueView
    ensures { result ≡ line_view shelves.now line.now }
{
    QueueView {
        owner: line.owner,
        left: left(shelves, line),
        flight: line.flight,
    }
}

#[tactic(auto, unfolding(rep_model::specs::Keyed::given))]
fn line_seen(core: &ClusterCore, peer: PeerId, server: ServerId) -> Option<QueueView>
    ensures { result ≡ line_seen peer server core.now }
{
    match added_peer(&core.peers, peer) {
        None => None,
        Some(_) => match find_line(&core.lines, peer, server) {
            None => None,
            Some(line) => Some(line_view(&core.index.shelves, line)),
        },
    }
}

/// A peer's queue for the logs of a server: its owner, how many commits are left in it, and its
/// outstanding flight. None where the peer wasn't added or is removed, or has no such queue. It
/// costs the search for them.
pub fn queue_view(core: &ClusterCore, peer: PeerId, server: ServerId) -> Option<QueueView>
    ensures seen { (way : Route) (c : Contents) (m : Machine) → Reached way m → is_in way core.now.own ≡ true
        → Stands core.now.own c core.now (of core.now.own m)
        → result ≡ queue_seen peer server (of core.now.own m) }
{
    line_seen(core, peer, server)
}
