// The entries of a batch are read from the files of logs.
ghost use Rattle.std.specs.Prelude.{◌≡◌, ◌≤◌, ◌+◌, ◌++◌, ℕ, List, true, length, IfOk, IfSome, OnOk, All};
ghost use Rattle.rep_vault.specs.Contents.{Contents};
ghost use Rattle.rep_types.specs.declared.entry.Entry.{Entry};
ghost use Rattle.wal_entry.specs.Framed.{HasFrame};
ghost use Rattle.wal_entry.specs.Length.{frame_length_of};
ghost use Rattle.wal_entry.specs.Spelling.{spelling};
ghost use Rattle.wal_reader.specs.Reader.{starting, fed, past};
ghost use Rattle.queue_events.specs.Reading.{IsFrameAt, HasFrameAt, AreFramesAt, IsNext, IsPiece, ReadTells};
ghost use Rattle.queue_events.specs.declared.reading.ReadError.TheVariants.{Memory as OutOfMemory};

use cluster_core::Kept;
use rep_types::{Bytes, Entries, Entry, Memory, ServerId};
use rep_vault::{Tried, Vault, try_read};
use std::alloc::{AllocError, Global};
use wal_reader::{LogReader, Next, ReaderError};
use wal_roll::{FOLDER, file_name};

/// Why entries weren't read: a call of the store failed, with its count of faults after it, or memory ran out.
#[derive(Clone, Copy)]
pub enum ReadError {
    StoreFault { count: u64 },
    Memory,
}

impl From<Memory> for ReadError {
    ghost from_gives = { λ _ e. e ≡ OutOfMemory };

    fn from(_: Memory) -> ReadError {
        ReadError::Memory
    }
}

impl From<AllocError> for ReadError {
    ghost from_gives = { λ _ e. e ≡ OutOfMemory };

    fn from(_: AllocError) -> ReadError {
        ReadError::Memory
    }
}

/// A reader of a log, and the place in the log after the bytes that it is fed with.
#[derive(Drop)]
struct Piece {
    reader: LogReader,
    end: u64,
}

// Whether the entry's frame is the next one, and stands in the piece whole.
fn is_next(piece: &Piece, kept: &Kept) -> bool
    ensures { result ≡ true → IsNext piece.now kept.now }
{
    let place = piece.reader.position();
    if kept.log != place.log || kept.offset != place.offset {
        return false;
    }
    kept.offset <= piece.end && kept.length <= piece.end - kept.offset
}

// Where the frames end that stand one behind the other in one log, from the first on. None where the first ends beyond all
// places of 64 bits.
fn run_end(first: &Kept, rest: &[Kept]) -> Option<u64>
    ensures { IfSome result (λ end. first.now.offset + first.now.length ≤ end) }
{
    let mut end = first.offset.checked_add(first.length)?;
    for next in rest {
        if next.log != first.log || next.offset != end {
            return Some(end);
        }
        end = end.saturating_add(next.length);
    }
    Some(end)
}

// A reader from the entry's place on, fed with the bytes from there to the end.
fn piece_of(alloc: Global, kept: &Kept, bytes: &[u8], end: u64) -> Result<Piece, Memory>
    requires { kept.now.offset + length bytes.now ≤ end }
    ensures { IfOk result (λ p. p ≡ record {
      reader = fed bytes.now (starting kept.now.log kept.now.offset);
      end = end;
    }) }
{
    let mut reader = LogReader::new(alloc, kept.log, kept.offset);
    reader.feed(bytes)?;
    Ok(Piece { reader, end })
}

// The bytes of a log from an entry's frame to the end of its run.
fn read_piece<V: Vault>(
    alloc: Global,
    own: &mut V,
    server: ServerId,
    kept: &Kept,
    end: u64,
) -> Result<Piece, ReadError>
    requires there { HasFrameAt (V.contents own.old) server kept.now }
    requires whole { kept.now.offset + kept.now.length ≤ end }
    ensures piece { IfOk result (λ p. IsPiece (V.contents own.old) server p × IsNext p kept.now) }
    ensures tells { ReadTells (V.tally own.old) (V.tally own.new) result }
    ensures same { V.contents own.new ≡ V.contents own.old }
{
    let name = file_name(alloc, server, kept.log)?;
    let mut bytes = Bytes::new(alloc);
    let size = end - kept.offset;
    match try_read(own, FOLDER, name.as_str(), kept.offset, size, &mut bytes) {
        Tried::Done => Ok(piece_of(alloc, kept, bytes.as_slice(), end)?),
        Tried::NotDone => Err(ReadError::StoreFault {
            count: own.faults(),
        }),
        Tried::NoMemory => Err(ReadError::Memory),
    }
}

// The entry's frame is the next of the piece. If it wasn't, a piece is read anew, with the frames behind that one. A frame that
// ends beyond all places of 64 bits, which no log has, is answered by Memory.
fn turn<V: Vault>(
    alloc: Global,
    own: &mut V,
    server: ServerId,
    piece: &mut Piece,
    kept: &Kept,
    rest: &[Kept],
) -> Result<(), ReadError>
    requires there { HasFrameAt (V.contents own.old) server kept.now }
    requires piece { IsPiece (V.contents own.old) server piece.old }
    ensures piece { OnOk result (IsPiece (V.contents own.old) server piece.new × IsNext piece.new kept.now) }
    ensures tells { ReadTells (V.tally own.old) (V.tally own.new) result }
    ensures same { V.contents own.new ≡ V.contents own.old }
{
    if is_next(piece, kept) {
        return Ok(());
    }
    let Some(end) = run_end(kept, rest) else {
        return Err(ReadError::Memory);
    };
    *piece = read_piece(alloc, own, server, kept, end)?;
    Ok(())
}

// The reader's next entry, where a whole frame is next.
fn next_entry(reader: &mut LogReader) -> Result<Entry, Memory>
    requires { (e : Entry) × (rest : List ℕ) × HasFrame e × (reader.old.left ≡ spelling e ++ rest) }
    ensures given { (e : Entry) (rest : List ℕ) → HasFrame e → reader.old.left ≡ spelling e ++ rest → IfOk result (λ got. got ≡ e) }
    ensures past { IfOk result (λ got. reader.new ≡ past (frame_length_of got) reader.old) }
{
    match reader.next() {
        Ok(Next::Entry(entry)) => Ok(entry),
        Ok(Next::Short) => unreachable!(),
        Err(ReaderError::BadFrame { .. }) => unreachable!(),
        Err(ReaderError::Memory) => Err(Memory),
    }
}

// One entry of a server's logs.
fn read_entry<V: Vault>(
    alloc: Global,
    own: &mut V,
    server: ServerId,
    piece: &mut Piece,
    kept: &Kept,
    rest: &[Kept],
) -> Result<Entry, ReadError>
    requires there { HasFrameAt (V.contents own.old) server kept.now }
    requires piece { IsPiece (V.contents own.old) server piece.old }
    ensures entry { IfOk result (IsFrameAt (V.contents own.old) server kept.now) }
    ensures piece { IfOk result (λ _. IsPiece (V.contents own.old) server piece.new) }
    ensures tells { ReadTells (V.tally own.old) (V.tally own.new) result }
    ensures same { V.contents own.new ≡ V.contents own.old }
{
    turn(alloc, own, server, piece, kept, rest)?;
    Ok(next_entry(&mut piece.reader)?)
}

// Nothing of a log.
fn no_piece(alloc: Global) -> Piece
    ensures { (c : Contents) (s : ℕ) → IsPiece c s result }
{
    Piece {
        reader: LogReader::new(alloc, 0, 0),
        end: 0,
    }
}

/// The entries at these places of a server's logs, in order, as a reader of the logs gives them. Frames that stand one behind
/// the other are read by one call, and no more of the files is read.
pub fn read_entries<V: Vault>(
    alloc: Global,
    own: &mut V,
    server: ServerId,
    kept: &[Kept],
) -> Result<Entries, ReadError>
    requires { All (HasFrameAt (V.contents own.old) server) kept.now }
    ensures entries { IfOk result (AreFramesAt (V.contents own.old) server kept.now) }
    ensures tells { ReadTells (V.tally own.old) (V.tally own.new) result }
    ensures same { V.contents own.new ≡ V.contents own.old }
{
    let mut entries = Entries::new(alloc);
    let mut piece = no_piece(alloc);
    for (at, one) in kept.iter().enumerate() {
        let rest = &kept[at + 1..];
        entries.push(read_entry(alloc, own, server, &mut piece, one, rest)?)?;
    }
    Ok(entries)
}
