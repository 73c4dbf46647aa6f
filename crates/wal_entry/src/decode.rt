ghost use Rattle.std.specs.Prelude.{◌≡◌, ◌≤◌, ◌++◌, ℕ, List, None, length, IfOk, IfSome};
ghost use Rattle.std.specs.Option.{SomeIff};
ghost use Rattle.byteorder.specs.Endian.{big_number};
ghost use Rattle.wal_entry.specs.Frame.{verdict};
ghost use Rattle.wal_entry.specs.Decoded.{Answers, BeginsWithFrame, IfFrame, IfShort, IfDone, IsFrame};
ghost use Rattle.wal_entry.specs.Framed.{HasFrame};
ghost use Rattle.wal_entry.specs.Length.{frame_length_of};
ghost use Rattle.wal_entry.specs.Judging.{Cut};
ghost use Rattle.wal_entry.specs.Resumed.{IsBegun, HasSeen, fresh, waits_for};
ghost use Rattle.wal_entry.specs.Spelling.{spelling};
ghost use Rattle.wal_entry.specs.Steps.{Starts, StopsIfErr};

mod cursor;
mod edit;
mod frame;
mod front;
mod item;
mod text;
mod write;

use byteorder::{BigEndian, ByteOrder};
use cursor::Stop;
use front::{Start, start_of};
use rep_types::{Entry, Memory};
use std::alloc::Global;
use write::Begun;

/// What bytes are, from their first on.
#[derive(Drop)]
pub enum Decoded {
    /// They begin with the entry's frame, of so many bytes.
    Frame { entry: Entry, length: u32 },
    /// The first broken item: the place of its first byte, and the number of its field.
    Bad { at: u32, rule: u8 },
    /// They end before a frame does, and no item is broken so far.
    Short,
}

/// The length of the frame that the bytes begin with, as its first four bytes have it, whether or
/// not it is one that a frame may have.
pub fn frame_length(bytes: &[u8]) -> Option<u32>
    ensures { SomeIff result (4 ≤ length bytes.now) (big_number 4 bytes.now) }
{
    if bytes.len() < 4 {
        return None;
    }
    Some(BigEndian::read_u32(bytes))
}

/// Decodes a frame whose bytes come in pieces. It keeps the items that it judged.
#[derive(Drop)]
pub struct Decoder {
    until: u32,
    begun: Option<Begun>,
}

// All of a write before its cells, and those that were judged, or what the first items tell.
fn begin(alloc: Global, bytes: &[u8], begun: Option<Begun>) -> Result<Start, Stop>
    requires { IfSome begun (λ b. IsBegun b bytes.now) }
    ensures { Starts result bytes.now }
{
    match begun {
        Some(begun) => Ok(Start::Write(begun)),
        None => start_of(alloc, bytes),
    }
}

impl Decoder {
    pub fn new() -> Decoder
        ensures { result ≡ fresh }
    {
        Decoder {
            until: 0,
            begun: None,
        }
    }

    // Judges on. What was judged of a write stays where its cells or its padding stop.
    fn judge(&mut self, alloc: Global, bytes: &[u8]) -> Result<Decoded, Stop>
        requires { IfSome self.old.begun (λ b. IsBegun b bytes.now) }
        ensures ok { IfOk result (λ decoded. IsFrame decoded (verdict bytes.now)) }
        ensures done { IfOk result (λ decoded. self.new.begun ≡ None) }
        ensures stops { StopsIfErr result (verdict bytes.now) }
        ensures begun { IfSome self.new.begun (λ b. IsBegun b bytes.now) }
        ensures until { self.new.until ≡ self.old.until }
    {
        match begin(alloc, bytes, self.begun.take())? {
            Start::Marker { entry, length } => Ok(Decoded::Frame { entry, length }),
            Start::Write(mut begun) => match begun.judge(alloc, bytes) {
                Ok(length) => Ok(Decoded::Frame {
                    entry: begun.into_entry(),
                    length,
                }),
                Err(stop) => {
                    self.begun = Some(begun);
                    Err(stop)
                }
            },
        }
    }

    /// What the bytes are, from their first on, as `decode_frame` tells it. Until a frame or a broken
    /// item is told, each call is shown the bytes of the one before, and maybe more behind them.
    ///
    /// Nothing is looked at before the item in which the bytes ended stands whole. An item that was
    /// judged is looked at again only with the rest of its part: a cell, or all before the cells.
    pub fn decode(&mut self, alloc: Global, bytes: &[u8]) -> Result<Decoded, Memory>
        requires { HasSeen self.old bytes.now }
        // A frame where all its items stand unbroken, `Bad` where an item is broken, else `Short`.
        ensures exact { Answers result (verdict bytes.now) }
        // What is decoded is spelled so.
        ensures spelled { IfFrame result (BeginsWithFrame bytes.now) }
        // It waits for the end of the item in which the bytes end.
        ensures waits { IfShort result (verdict bytes.now ≡ Cut (waits_for self.new)) }
        // It goes on from where it stands now, also where memory ran out.
        ensures seen { HasSeen self.new bytes.now }
        // After a frame or a broken item it begins anew.
        ensures done { IfDone result (self.new ≡ fresh) }
    {
        if bytes.len() < self.until as usize {
            return Ok(Decoded::Short);
        }
        self.until = 0;
        match self.judge(alloc, bytes) {
            Ok(decoded) => Ok(decoded),
            Err(Stop::Bad { at, rule }) => {
                self.begun = None;
                Ok(Decoded::Bad { at, rule })
            }
            Err(Stop::Short { until }) => {
                self.until = until;
                Ok(Decoded::Short)
            }
            Err(Stop::Memory) => Err(Memory),
        }
    }
}

/// What the bytes are, from their first on. Bytes after a frame don't matter.
pub fn decode_frame(alloc: Global, bytes: &[u8]) -> Result<Decoded, Memory>
    // A frame where all its items stand unbroken, `Bad` where an item is broken, else `Short`.
    ensures exact { Answers result (verdict bytes.now) }
    // What is decoded is spelled so.
    ensures spelled { IfFrame result (BeginsWithFrame bytes.now) }
    // What is spelled so is decoded, whatever follows.
    ensures again { (entry : Entry) (rest : List ℕ) → HasFrame entry → bytes.now ≡ spelling entry ++ rest
        → IfOk result (λ decoded. decoded ≡ Decoded.Frame entry (frame_length_of entry)) }
{
    Decoder::new().decode(alloc, bytes)
}
