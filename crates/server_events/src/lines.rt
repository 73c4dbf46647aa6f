// The queues of a new server.
ghost use Rattle.std.specs.Prelude.{◌≡◌, ◌++◌, OnOk};
ghost use Rattle.rep_model.specs.Peers.{is_removed};
ghost use Rattle.server_events.specs.Effects.{server_lines};

use cluster_core::{Line, PeerLine};
use rep_model::Standing;
use rep_types::{Items, Memory, QueueForm, ServerId};

fn is_removed(standing: Standing) -> bool
    ensures { result ≡ is_removed standing }
{
    match standing {
        Standing::Enabled => false,
        Standing::Disabled => false,
        Standing::Removed => true,
    }
}

/// A queue of the server for each peer that isn't removed, with records of this form.
pub fn add_lines(
    lines: &mut Items<Line>,
    form: QueueForm,
    server: ServerId,
    peers: &Items<PeerLine>,
) -> Result<(), Memory>
    ensures { OnOk result (lines.new ≡ lines.old ++ server_lines form server peers.now) }
{
    for peer in peers.as_slice() {
        if !is_removed(peer.standing) {
            lines.push(Line {
                peer: peer.number,
                server,
                owner: server,
                form,
                flight: None,
                at: 0,
            })?;
        }
    }
    Ok(())
}
