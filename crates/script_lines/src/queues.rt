// The lines of a cluster's queues.
ghost use Rattle.std.specs.Prelude.{◌≡◌, ◌+◌, ◌++◌, ◌<◌, false, OnOk};
ghost use Rattle.rep_model.specs.Runs.{state_of};
ghost use Rattle.script_lines.specs.Views.{queue_shown, peer_text, queues_text};

use pair_core::Pair;
use rep_types::{Cluster, Memory, PeerId, ServerId};
use rep_vault::Vault;
use report_text::queue_line;

fn server_id(at: u32) -> ServerId
    requires { at < 64 }
    ensures { result ≡ at + 1 }
{
    let Some(server) = ServerId::new(at + 1) else {
        unreachable!()
    };
    server
}

fn peer_id(at: u32) -> PeerId
    requires { at < 4 }
    ensures { result ≡ at + 1 }
{
    let Some(peer) = PeerId::new(at + 1) else {
        unreachable!()
    };
    peer
}

fn server_line<V: Vault>(
    cluster: Cluster,
    peer: PeerId,
    server: ServerId,
    pair: &Pair<V>,
    out: &mut Vec<u8>,
) -> Result<(), Memory>
    ensures text { pair.now.spent ≡ false → OnOk result (out.new.items ≡ out.old.items ++ queue_shown cluster (state_of pair.now.journal) peer server) }
{
    match pair.queue_view(cluster, peer, server) {
        Some(view) => queue_line(cluster, peer, server, &view, out),
        None => Ok(()),
    }
}

fn peer_lines<V: Vault>(
    cluster: Cluster,
    peer: PeerId,
    pair: &Pair<V>,
    out: &mut Vec<u8>,
) -> Result<(), Memory>
    ensures text { pair.now.spent ≡ false → OnOk result (out.new.items ≡ out.old.items ++ peer_text cluster (state_of pair.now.journal) peer) }
{
    for at in 0..64u32 {
        server_line(cluster, peer, server_id(at), pair, out)?;
    }
    Ok(())
}

/// The lines of the queues of each peer that isn't removed, by the numbers of peer and server.
pub fn queue_lines<V: Vault>(
    cluster: Cluster,
    pair: &Pair<V>,
    out: &mut Vec<u8>,
) -> Result<(), Memory>
    ensures text { pair.now.spent ≡ false → OnOk result (out.new.items ≡ out.old.items ++ queues_text cluster (state_of pair.now.journal)) }
{
    for at in 0..4u32 {
        peer_lines(cluster, peer_id(at), pair, out)?;
    }
    Ok(())
}
