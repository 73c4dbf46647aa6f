ghost use Rattle.std.specs.Prelude.{◌≡◌, ◌+◌, ◌-◌, ◌^◌, ◌<◌, ◌++◌, ℕ, List, length, IsTrue, Ok, OnOk, OnErr};
ghost use Rattle.rep_types.specs.declared.entry.Entry.{Entry};
ghost use Rattle.wal_entry.specs.Decoded.{BeginsWithFrame};
ghost use Rattle.wal_entry.specs.Frame.{verdict};
ghost use Rattle.wal_entry.specs.Framed.{HasFrame};
ghost use Rattle.wal_entry.specs.Length.{frame_length_of};
ghost use Rattle.wal_entry.specs.Spelling.{spelling};
ghost use Rattle.wal_reader.specs.Calls.{EndsFrames};
ghost use Rattle.wal_reader.specs.Reader.{starting, fed, end_of};
ghost use Rattle.wal_reader.specs.Reading.{answer, after, UnlessMemory, IfEntry, IfEnded, IsBadFrame, Gives};
ghost use Rattle.wal_reader.specs.declared.reader.Next.TheVariants as next;

use crate::ReaderError;
use bytes::BytesMut;
use rep_types::{Entry, Memory, Place};
use std::alloc::Global;
use std::marker::Model;
use wal_entry::{Decoded, Decoder};

/// What a reader gives next.
#[derive(Drop)]
pub enum Next {
    Entry(Entry),
    /// The bytes fed end before the next frame does, and no item is broken so far.
    Short,
}

// The first broken item: how far it is from the first byte, and the number of its field.
#[derive(Clone, Copy)]
struct Fault {
    at: u32,
    rule: u8,
}

/// Reads a server's logs one after another, from the bytes that it is fed. It keeps what its decoder
/// judged of a frame that is cut off.
#[derive(Drop)]
pub struct LogReader {
    place: Place,
    left: BytesMut,
    decoder: Decoder,
    bad: Option<Fault>,
}

impl Model for LogReader {
    ghost use Rattle.std.specs.Prelude.{◌≡◌, ◌+◌, ◌^◌, ◌<◌, length, is_some, IfSome};
    ghost use Rattle.wal_entry.specs.Frame.{verdict};
    ghost use Rattle.wal_entry.specs.Judging.{Broken};
    ghost use Rattle.wal_entry.specs.Resumed.{HasSeen};
    ghost use Rattle.wal_reader.specs.Reader.{Reader};

    ghost Value = { Reader };

    ghost view = { λ r. record { place = r.place; left = r.left.items; told = is_some r.bad } };

    ghost invariant = { λ r. (r.place.offset + length r.left.items < 2 ^ 64)
        × HasSeen r.decoder r.left.items
        × IfSome r.bad (λ bad. verdict r.left.items ≡ Broken bad.at bad.rule) };
}

fn bad_frame(place: Place, bad: Fault) -> ReaderError
    requires { place.offset + bad.at < 2 ^ 64 }
    ensures { result ≡ ReaderError.BadFrame place.log (place.offset + bad.at) bad.rule }
{
    ReaderError::BadFrame {
        log: place.log,
        at: place.offset + u64::from(bad.at),
        rule: bad.rule,
    }
}

impl LogReader {
    /// Begins in a log at an offset, where a frame begins.
    pub fn new(alloc: Global, log: u32, from: u64) -> LogReader
        ensures { result ≡ starting log from }
    {
        LogReader {
            place: Place { log, offset: from },
            left: BytesMut::new(alloc),
            decoder: Decoder::new(),
            bad: None,
        }
    }

    /// Takes the log's next bytes.
    pub fn feed(&mut self, piece: &[u8]) -> Result<(), Memory>
        requires { end_of self.old + length piece.now < 2 ^ 64 }
        ensures ok { OnOk result (self.new ≡ fed piece.now self.old) }
        ensures err { OnErr result (self.new ≡ self.old) }
    {
        self.left.extend_from_slice(piece)?;
        Ok(())
    }

    // `next`, in what the bytes are
    fn read(&mut self) -> Result<Next, ReaderError>
        ensures exact { UnlessMemory result (answer self.old.place (verdict self.old.left)) }
        ensures left { self.new ≡ after result self.old }
        ensures spelled { IfEntry result (λ entry.
            BeginsWithFrame self.old.left entry (frame_length_of entry)) }
        ensures told { IsTrue self.old.told → IsBadFrame result }
    {
        let place = self.place;
        if let Some(bad) = self.bad {
            return Err(bad_frame(place, bad));
        }
        let alloc = *self.left.allocator();
        match self.decoder.decode(alloc, self.left.as_slice())? {
            Decoded::Frame { entry, length } => {
                self.left.advance(length as usize);
                self.place.offset += u64::from(length);
                Ok(Next::Entry(entry))
            }
            Decoded::Bad { at, rule } => {
                let bad = Fault { at, rule };
                self.bad = Some(bad);
                Err(bad_frame(place, bad))
            }
            Decoded::Short => Ok(Next::Short),
        }
    }

    /// The next entry of the bytes fed. Once a frame is bad, every answer is the same until
    /// `next_log`.
    pub fn next(&mut self) -> Result<Next, ReaderError>
        // What the bytes left are, with the place of a broken item as one in the log.
        ensures exact { UnlessMemory result (answer self.old.place (verdict self.old.left)) }
        // An entry's frame is gone past; else the bytes stay, and that they are bad is kept.
        ensures left { self.new ≡ after result self.old }
        // What is given is spelled so.
        ensures spelled { IfEntry result (λ entry. Gives self.old entry self.new) }
        // What is spelled so is given, whatever follows.
        ensures again { (entry : Entry) (rest : List ℕ) → HasFrame entry
            → self.old.left ≡ spelling entry ++ rest
            → UnlessMemory result (Ok (next.Entry entry)) }
        // What is told to be short or bad doesn't begin with a frame.
        ensures ended { IfEnded result (EndsFrames self.new.left) }
        // What was told to be bad is told again, also where no memory is left.
        ensures told { IsTrue self.old.told → IsBadFrame result }
        ensures end { end_of self.new ≡ end_of self.old }
    {
        self.read()
    }

    /// The place after the last entry that was given.
    pub fn position(&self) -> Place
        ensures { result ≡ self.now.place }
    {
        self.place
    }

    /// Gives up what is left, a torn frame or bad bytes, and goes to the start of the next log.
    pub fn next_log(&mut self)
        requires { self.old.place.log < 2 ^ 32 - 1 }
        ensures { self.new ≡ starting (self.old.place.log + 1) 0 }
    {
        self.place = Place {
            log: self.place.log + 1,
            offset: 0,
        };
        self.left.clear();
        self.decoder = Decoder::new();
        self.bad = None;
    }
}
