ghost use Rattle.std.specs.Prelude.{◌≡◌, ◌++◌, OnOk};
ghost use Rattle.report_text.specs.Events.{event_text};

use crate::cell::write_cells;
use crate::lists::{write_families, write_names};
use crate::words::{kind_word, state_word};
use rep_types::Event;
use std::io;
use std::io::Write;

pub fn write_event(out: &mut Vec<u8>, event: &Event) -> io::Result<()>
    ensures { OnOk result (out.new.items ≡ out.old.items ++ event_text event.now) }
{
    match event {
        Event::Server { cluster, server } => write!(out, "server {cluster} {server}"),
        Event::Table {
            cluster,
            table,
            specs,
        } => {
            write!(out, "table {cluster} {table} ")?;
            write_families(out, specs.as_slice())
        }
        Event::OpenBegin {
            cluster,
            region,
            server,
        } => write!(out, "openbegin {cluster} {region} {server}"),
        Event::OpenEnd { cluster, region } => write!(out, "openend {cluster} {region}"),
        Event::CloseBegin { cluster, region } => write!(out, "closebegin {cluster} {region}"),
        Event::CloseEnd { cluster, region } => write!(out, "closeend {cluster} {region}"),
        Event::Put {
            cluster,
            table,
            row,
            cells,
        } => {
            write!(out, "put {cluster} {table} {row}")?;
            write_cells(out, cells.as_slice())
        }
        Event::Get {
            cluster,
            table,
            row,
        } => write!(out, "get {cluster} {table} {row}"),
        Event::Show { cluster, table } => write!(out, "show {cluster} {table}"),
        Event::Sync { cluster, server } => write!(out, "sync {cluster} {server}"),
        Event::Roll { cluster, server } => write!(out, "roll {cluster} {server}"),
        Event::Crash { cluster, server } => write!(out, "crash {cluster} {server}"),
        Event::Seal { cluster, server } => write!(out, "seal {cluster} {server}"),
        Event::Recover { cluster, region } => write!(out, "recover {cluster} {region}"),
        Event::Split {
            cluster,
            region,
            key,
        } => write!(out, "split {cluster} {region} {key}"),
        Event::Merge { cluster, low, high } => write!(out, "merge {cluster} {low} {high}"),
        Event::Flush { cluster, region } => write!(out, "flush {cluster} {region}"),
        Event::Compact { cluster, region } => write!(out, "compact {cluster} {region}"),
        Event::Sweep { cluster, server } => write!(out, "sweep {cluster} {server}"),
        Event::SweepRemote { cluster, server } => write!(out, "sweepremote {cluster} {server}"),
        Event::Peer {
            cluster,
            peer,
            kind,
            tables,
        } => {
            write!(out, "peer {cluster} {peer} {} ", kind_word(*kind))?;
            write_names(out, tables.as_slice())
        }
        Event::Enable { cluster, peer } => write!(out, "enable {cluster} {peer}"),
        Event::Disable { cluster, peer } => write!(out, "disable {cluster} {peer}"),
        Event::Remove { cluster, peer } => write!(out, "remove {cluster} {peer}"),
        Event::MakeSerial { cluster, peer } => write!(out, "makeserial {cluster} {peer}"),
        Event::Send {
            cluster,
            peer,
            server,
            most,
        } => write!(out, "send {cluster} {peer} {server} {most}"),
        Event::Deliver { flight } => write!(out, "deliver {flight}"),
        Event::Lose { flight } => write!(out, "lose {flight}"),
        Event::Confirm { flight } => write!(out, "confirm {flight}"),
        Event::Claim {
            cluster,
            by,
            server,
            peer,
        } => write!(out, "claim {cluster} {by} {server} {peer}"),
        Event::Mirror { cluster, server } => write!(out, "mirror {cluster} {server}"),
        Event::TransitBegin { cluster, state } => {
            write!(out, "transitbegin {cluster} {}", state_word(*state))
        }
        Event::TransitEnd { cluster } => write!(out, "transitend {cluster}"),
        Event::MakeFolder { cluster } => write!(out, "makefolder {cluster}"),
        Event::PromoteBegin { cluster } => write!(out, "promotebegin {cluster}"),
        Event::Replay { cluster } => write!(out, "replay {cluster}"),
        Event::PromoteEnd { cluster } => write!(out, "promoteend {cluster}"),
        Event::OldQueues { cluster } => write!(out, "oldqueues {cluster}"),
        Event::MigrateBegin { cluster } => write!(out, "migratebegin {cluster}"),
        Event::Migrate {
            cluster,
            peer,
            server,
        } => write!(out, "migrate {cluster} {peer} {server}"),
        Event::MigrateEnd { cluster } => write!(out, "migrateend {cluster}"),
    }
}
