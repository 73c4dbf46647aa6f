ghost use Rattle.std.specs.Prelude.{◌≡◌, ◌++◌, OnOk};
ghost use Rattle.report_text.specs.Replies.{cause_text, needed_text, needroll_text, refusal_text, stale_text, storefault_text, wrongstate_text};

use crate::words::{call_word, place_word, state_word, write_phase};
use rep_types::{Call, Cause, Cluster, Needer, Phase, Refusal, ServerId, SyncState};
use std::io;
use std::io::Write;

pub fn write_wrongstate(out: &mut Vec<u8>, have: SyncState, phase: &Phase) -> io::Result<()>
    ensures { OnOk result (out.new.items ≡ out.old.items ++ wrongstate_text have phase.now) }
{
    write!(out, "wrongstate have={} phase=", state_word(have))?;
    write_phase(out, phase)
}

fn write_needroll(out: &mut Vec<u8>, server: &ServerId, used: u32, need: u32) -> io::Result<()>
    ensures { OnOk result (out.new.items ≡ out.old.items ++ needroll_text server.now used need) }
{
    write!(
        out,
        "needroll server={server} used={used} need={need} limit=65536"
    )
}

pub fn write_storefault(out: &mut Vec<u8>, store: Cluster, call: Call, count: u64) -> io::Result<()>
    ensures { OnOk result (out.new.items ≡ out.old.items ++ storefault_text store call count) }
{
    write!(
        out,
        "storefault store={store} call={} count={count}",
        call_word(call)
    )
}

pub fn write_cause(out: &mut Vec<u8>, cause: &Cause) -> io::Result<()>
    ensures { OnOk result (out.new.items ≡ out.old.items ++ cause_text cause.now) }
{
    match cause {
        Cause::WrongState { have, phase } => write_wrongstate(out, *have, phase),
        Cause::NotServing { region } => write!(out, "notserving region={region}"),
        Cause::Broken { log } => write!(out, "broken log={log}"),
        Cause::NeedRoll { server, used, need } => write_needroll(out, server, *used, *need),
        Cause::StoreFault { store, call, count } => write_storefault(out, *store, *call, *count),
    }
}

fn write_needed(out: &mut Vec<u8>, by: &Needer) -> io::Result<()>
    ensures { OnOk result (out.new.items ≡ out.old.items ++ needed_text by.now) }
{
    match by {
        Needer::Peer(peer) => write!(out, "needed by=peer:{peer}"),
        Needer::Region(region) => write!(out, "needed by=region:{region}"),
    }
}

fn write_stale(out: &mut Vec<u8>, now: &Option<u32>) -> io::Result<()>
    ensures { OnOk result (out.new.items ≡ out.old.items ++ stale_text now.now) }
{
    match now {
        Some(flight) => write!(out, "stale now={flight}"),
        None => write!(out, "stale now=none"),
    }
}

pub fn write_refusal(out: &mut Vec<u8>, refusal: &Refusal) -> io::Result<()>
    ensures { OnOk result (out.new.items ≡ out.old.items ++ refusal_text refusal.now) }
{
    match refusal {
        Refusal::NoServer => write!(out, "noserver"),
        Refusal::NoRegion => write!(out, "noregion"),
        Refusal::NoPeer => write!(out, "nopeer"),
        Refusal::NoTable => write!(out, "notable"),
        Refusal::NoFamily => write!(out, "nofamily"),
        Refusal::NoFlight => write!(out, "noflight"),
        Refusal::NoQueue => write!(out, "noqueue"),
        Refusal::NoSync => write!(out, "nosync"),
        Refusal::NoLog => write!(out, "nolog"),
        Refusal::Exists => write!(out, "exists"),
        Refusal::TooMany => write!(out, "toomany limit=4096"),
        Refusal::Dead { server } => write!(out, "dead server={server}"),
        Refusal::Alive { server } => write!(out, "alive server={server}"),
        Refusal::Sealed => write!(out, "sealed"),
        Refusal::NotSealed { server } => write!(out, "notsealed server={server}"),
        Refusal::OwnerDead { by } => write!(out, "ownerdead by={by}"),
        Refusal::WrongPlace { have } => write!(out, "wrongplace have={}", place_word(have)),
        Refusal::NotClosed => write!(out, "notclosed"),
        Refusal::BadKey => write!(out, "badkey"),
        Refusal::NotAdjacent => write!(out, "notadjacent"),
        Refusal::TooLong { have } => write!(out, "toolong have={have}"),
        Refusal::Standby => write!(out, "standby"),
        Refusal::NotServing { region } => write!(out, "notserving region={region}"),
        Refusal::Broken { log } => write!(out, "broken log={log}"),
        Refusal::NeedRoll { server, used, need } => write_needroll(out, server, *used, *need),
        Refusal::Pending { count } => write!(out, "pending count={count}"),
        Refusal::Fenced => write!(out, "fenced"),
        Refusal::NotDual => write!(out, "notdual"),
        Refusal::Needed { by } => write_needed(out, by),
        Refusal::ScopeZero => write!(out, "scopezero"),
        Refusal::IsSync => write!(out, "issync"),
        Refusal::IsSerial => write!(out, "isserial"),
        Refusal::SyncTaken => write!(out, "synctaken"),
        Refusal::SyncDiffers => write!(out, "syncdiffers"),
        Refusal::Disabled => write!(out, "disabled"),
        Refusal::Outstanding { flight } => write!(out, "outstanding flight={flight}"),
        Refusal::Empty => write!(out, "empty"),
        Refusal::Held { need } => {
            let cluster = need.cluster;
            let region = &need.region;
            let seq = need.seq;
            write!(out, "held need={cluster}/{region}/{seq}")
        }
        Refusal::Stale { now } => write_stale(out, now),
        Refusal::NotDelivered { flight } => write!(out, "notdelivered flight={flight}"),
        Refusal::Owned { by } => write!(out, "owned by={by}"),
        Refusal::WrongState { have, phase } => write_wrongstate(out, *have, phase),
        Refusal::NotReady { server } => write!(out, "notready server={server}"),
        Refusal::NoRemoteFolder => write!(out, "noremotefolder"),
        Refusal::NotOld => write!(out, "notold"),
        Refusal::NotMixed => write!(out, "notmixed"),
        Refusal::Migrated => write!(out, "migrated"),
        Refusal::Unmigrated { peer, server } => write!(out, "unmigrated queue={peer}/{server}"),
    }
}
