ghost use Rattle.std.specs.Prelude.{◌≡◌, ◌++◌, OnOk};
ghost use Rattle.report_text.specs.QueueLine.{optional_text, queue_text};

use crate::lines::or_memory;
use rep_types::{Cluster, Memory, PeerId, QueueView, ServerId};
use std::io;
use std::io::Write;

fn write_flight(out: &mut Vec<u8>, flight: Option<u32>) -> io::Result<()>
    ensures { OnOk result (out.new.items ≡ out.old.items ++ optional_text flight) }
{
    match flight {
        Some(flight) => write!(out, "{flight}"),
        None => write!(out, "none"),
    }
}

fn write_queue(
    out: &mut Vec<u8>,
    cluster: Cluster,
    peer: PeerId,
    server: ServerId,
    view: &QueueView,
) -> io::Result<()>
    ensures { OnOk result (out.new.items ≡ out.old.items ++ queue_text cluster peer server view.now) }
{
    let owner = view.owner;
    let left = view.left;
    write!(out, "queue {cluster} {peer} {server}")?;
    write!(out, " owner={owner} left={left} flight=")?;
    write_flight(out, view.flight)?;
    writeln!(out)
}

/// Adds the line `queue CLUSTER PEER SERVER owner=SERVER left=N flight=F`, with `none` where no
/// flight is outstanding. After Memory a part of these bytes may stand at the end of `out`.
pub fn queue_line(
    cluster: Cluster,
    peer: PeerId,
    server: ServerId,
    view: &QueueView,
    out: &mut Vec<u8>,
) -> Result<(), Memory>
    ensures text { OnOk result (out.new.items ≡ out.old.items ++ queue_text cluster peer server view.now) }
{
    or_memory(write_queue(out, cluster, peer, server, view))
}
