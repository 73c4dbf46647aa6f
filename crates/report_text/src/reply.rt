ghost use Rattle.std.specs.Prelude.{◌≡◌, ◌++◌, OnOk};
ghost use Rattle.report_text.specs.Replies.{acks_text, doubtful_text, reply_text};

use crate::lists::write_numbers;
use crate::refusal::{write_cause, write_refusal, write_storefault};
use rep_types::{Reply, Tickets};
use std::io;
use std::io::Write;

fn write_acks(out: &mut Vec<u8>, acks: &Tickets) -> io::Result<()>
    ensures { OnOk result (out.new.items ≡ out.old.items ++ acks_text acks.now) }
{
    write!(out, " acks=")?;
    write_numbers(out, acks.as_slice())
}

fn write_doubtful(out: &mut Vec<u8>, doubtful: &Tickets) -> io::Result<()>
    ensures { OnOk result (out.new.items ≡ out.old.items ++ doubtful_text doubtful.now) }
{
    write!(out, " doubtful=")?;
    write_numbers(out, doubtful.as_slice())
}

/// A reply, without the cells that it shows.
pub fn write_reply(out: &mut Vec<u8>, reply: &Reply) -> io::Result<()>
    ensures { OnOk result (out.new.items ≡ out.old.items ++ reply_text reply.now) }
{
    match reply {
        Reply::Done => write!(out, "ok"),
        Reply::Made { region } => write!(out, "ok region={region}"),
        Reply::Begun { barrier } => write!(out, "ok barrier={barrier}"),
        Reply::Marked { seq, acks } => {
            write!(out, "ok seq={seq}")?;
            write_acks(out, acks)
        }
        Reply::Accepted {
            region,
            seq,
            ticket,
        } => write!(out, "ok region={region} seq={seq} ticket={ticket}"),
        Reply::Shown { cells } => write!(out, "ok cells={}", cells.len()),
        Reply::Synced { commits, acks } => {
            write!(out, "ok commits={commits}")?;
            write_acks(out, acks)
        }
        Reply::Rolled {
            log,
            commits,
            dropped,
            doubtful,
        } => {
            write!(out, "ok log={log} commits={commits} dropped={dropped}")?;
            write_doubtful(out, doubtful)
        }
        Reply::Crashed { doubtful } => {
            write!(out, "ok")?;
            write_doubtful(out, doubtful)
        }
        Reply::Sealed { commits, dropped } => {
            write!(out, "ok commits={commits} dropped={dropped}")
        }
        Reply::Split { low, high } => write!(out, "ok low={low} high={high}"),
        Reply::Swept { log } => write!(out, "ok log={log}"),
        Reply::Sent {
            flight,
            entries,
            forms,
        } => write!(out, "ok flight={flight} entries={entries} forms={forms}"),
        Reply::All { arrived, acks } => {
            write!(out, "all arrived={arrived}")?;
            write_acks(out, acks)
        }
        Reply::Stopped { index, acks, cause } => {
            write!(out, "stopped index={index}")?;
            write_acks(out, acks)?;
            write!(out, " ")?;
            write_cause(out, cause)
        }
        Reply::Recorded { entries } => write!(out, "ok recorded={entries}"),
        Reply::Mirrored { acks } => {
            write!(out, "ok")?;
            write_acks(out, acks)
        }
        Reply::Changed { acks, doubtful } => {
            write!(out, "ok")?;
            write_acks(out, acks)?;
            write_doubtful(out, doubtful)
        }
        Reply::Replayed {
            server,
            log,
            entries,
        } => write!(out, "ok server={server} log={log} entries={entries}"),
        Reply::StoreFault { store, call, count } => write_storefault(out, *store, *call, *count),
        Reply::Refused(refusal) => write_refusal(out, refusal),
    }
}
