ghost use Rattle.std.specs.Prelude.{◌≡◌, ◌+◌, ◌^◌, ◌<◌, ◌++◌, IsOk, OnOk, flat_map, length};
ghost use Rattle.report_text.specs.Lines.{lines_from, record_text, shown_text};
ghost use Rattle.report_text.specs.Values.{view_text};

use crate::cell::write_views;
use crate::event::write_event;
use crate::reply::write_reply;
use rep_types::{Memory, Record, Reply, Views};
use std::io;
use std::io::Write;

fn write_shown(out: &mut Vec<u8>, reply: &Reply) -> io::Result<()>
    ensures { OnOk result (out.new.items ≡ out.old.items ++ shown_text reply.now) }
{
    match reply {
        Reply::Shown { cells } => write_views(out, cells.as_slice()),
        _ => Ok(()),
    }
}

fn write_record(out: &mut Vec<u8>, number: u64, made: &Record) -> io::Result<()>
    ensures { OnOk result (out.new.items ≡ out.old.items ++ record_text number made.now) }
{
    write!(out, "{number} ")?;
    write_event(out, &made.event)?;
    write!(out, " -> ")?;
    write_reply(out, &made.reply)?;
    writeln!(out)?;
    write_shown(out, &made.reply)
}

fn write_lines(out: &mut Vec<u8>, first: u64, records: &[Record]) -> io::Result<()>
    requires { first + length records.now < 2 ^ 64 }
    ensures { OnOk result (out.new.items ≡ out.old.items ++ lines_from first records.now) }
{
    let mut number = first;
    for made in records {
        write_record(out, number, made)?;
        number += 1;
    }
    Ok(())
}

// A vector takes all bytes unless memory is short.
pub(crate) fn or_memory(written: io::Result<()>) -> Result<(), Memory>
    ensures { OnOk result (IsOk written) }
{
    match written {
        Ok(()) => Ok(()),
        Err(_) => Err(Memory),
    }
}

/// Adds a record's line, `NUMBER EVENT -> REPLY`, and below it a line for each cell that the reply
/// shows. After Memory a part of these bytes may stand at the end of `out`.
pub fn print_record(number: u32, made: &Record, out: &mut Vec<u8>) -> Result<(), Memory>
    ensures { OnOk result (out.new.items ≡ out.old.items ++ record_text number made.now) }
{
    or_memory(write_record(out, u64::from(number), made))
}

/// Adds a line `| ROW FAMILY:QUALIFIER@STAMP=VALUE` for each cell. After Memory a part of these
/// bytes may stand at the end of `out`.
pub fn views(list: &Views, out: &mut Vec<u8>) -> Result<(), Memory>
    ensures { OnOk result (out.new.items ≡ out.old.items ++ flat_map view_text list.now) }
{
    or_memory(write_views(out, list.as_slice()))
}

/// Adds the lines of records that follow each other in a journal, the first of which has this
/// number. After Memory a part of these bytes may stand at the end of `out`.
pub fn print_lines(first: u64, records: &[Record], out: &mut Vec<u8>) -> Result<(), Memory>
    requires { first + length records.now < 2 ^ 64 }
    ensures { OnOk result (out.new.items ≡ out.old.items ++ lines_from first records.now) }
{
    or_memory(write_lines(out, first, records))
}
