ghost use Rattle.std.specs.Prelude.{◌≡◌, ◌++◌, OnOk};
ghost use Rattle.report_text.specs.DrainLine.{drain_text, stuck_text};

use crate::lines::or_memory;
use crate::refusal::{write_storefault, write_wrongstate};
use rep_types::{DrainEnd, Memory, StuckCause};
use std::io;
use std::io::Write;

fn write_stuck(out: &mut Vec<u8>, cause: &StuckCause) -> io::Result<()>
    ensures { OnOk result (out.new.items ≡ out.old.items ++ stuck_text cause.now) }
{
    match cause {
        StuckCause::NotServing { region } => write!(out, "notserving region={region}"),
        StuckCause::WrongState { have, phase } => write_wrongstate(out, *have, phase),
        StuckCause::Broken { log } => write!(out, "broken log={log}"),
        StuckCause::Fenced => write!(out, "fenced"),
        StuckCause::NoServer => write!(out, "noserver"),
        StuckCause::StoreFault { store, call, count } => {
            write_storefault(out, *store, *call, *count)
        }
    }
}

fn write_end(out: &mut Vec<u8>, end: &DrainEnd) -> io::Result<()>
    ensures { OnOk result (out.new.items ≡ out.old.items ++ drain_text end.now) }
{
    match end {
        DrainEnd::Drained => writeln!(out, "drained"),
        DrainEnd::Stuck {
            cluster,
            peer,
            server,
            cause,
        } => {
            write!(out, "stuck {cluster} {peer} {server} ")?;
            write_stuck(out, cause)?;
            writeln!(out)
        }
    }
}

/// Adds the last line of a drain: `drained` where every queue of each enabled peer is empty, else
/// `stuck CLUSTER PEER SERVER CAUSE` of the queue that is told, its cause in the words of a refusal.
/// After Memory a part of these bytes may stand at the end of `out`.
pub fn drain_line(end: &DrainEnd, out: &mut Vec<u8>) -> Result<(), Memory>
    ensures text { OnOk result (out.new.items ≡ out.old.items ++ drain_text end.now) }
{
    or_memory(write_end(out, end))
}
