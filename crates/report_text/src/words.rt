ghost use Rattle.std.specs.Prelude.{◌≡◌, ◌++◌, OnOk};
ghost use Rattle.report_text.specs.Words.{call_text, kind_text, phase_text, place_text, state_text};

use rep_types::{Call, Kind, Phase, PlaceOf, SyncState};
use std::io;
use std::io::Write;

pub fn kind_word(kind: Kind) -> &'static str
    ensures { result.now ≡ kind_text kind }
{
    match kind {
        Kind::Plain => "plain",
        Kind::Serial => "serial",
        Kind::Synchronous => "sync",
    }
}

pub fn state_word(state: SyncState) -> &'static str
    ensures { result.now ≡ state_text state }
{
    match state {
        SyncState::Absent => "absent",
        SyncState::Active => "active",
        SyncState::Downgrade => "downgrade",
        SyncState::Standby => "standby",
    }
}

pub fn call_word(call: Call) -> &'static str
    ensures { result.now ≡ call_text call }
{
    match call {
        Call::Create => "create",
        Call::Append => "append",
        Call::Sync => "sync",
        Call::Seal => "seal",
        Call::Read => "read",
        Call::Make => "make",
        Call::Rename => "rename",
        Call::Remove => "remove",
        Call::List => "list",
        Call::Put => "put",
    }
}

pub fn place_word(place: &PlaceOf) -> &'static str
    ensures { result.now ≡ place_text place.now }
{
    match place {
        PlaceOf::Off => "off",
        PlaceOf::Opening(_) => "opening",
        PlaceOf::On(_) => "on",
        PlaceOf::Closing(_) => "closing",
        PlaceOf::Lost(_) => "lost",
        PlaceOf::Gone => "gone",
    }
}

pub fn write_phase(out: &mut Vec<u8>, phase: &Phase) -> io::Result<()>
    ensures { OnOk result (out.new.items ≡ out.old.items ++ phase_text phase.now) }
{
    match phase {
        Phase::Idle => write!(out, "idle"),
        Phase::To(state) => write!(out, "to-{}", state_word(*state)),
        Phase::NoFolder => write!(out, "nofolder"),
        Phase::Replaying { left } => write!(out, "replaying:{left}"),
    }
}
