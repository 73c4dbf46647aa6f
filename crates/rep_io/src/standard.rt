ghost use Rattle.std.specs.Prelude.{◌≡◌, ◌≤◌, ◌<◌, None, length, IfOk, is_err, if◌then◌else◌};
ghost use Rattle.std.specs.Io.KnownBytes.{ReadConsumes, WriteAppends};
ghost use Rattle.rep_io.specs.Io.{next_count};
ghost use Rattle.rep_io.specs.Standard.{is_fault};

use crate::faults::Faults;
use crate::{ReadFailed, Sink, Source, WriteFailed};
use std::io::{Read, Write};
use std::marker::Model;

/// A source over a reader, of which one read is one call. It tells nothing of its bytes: what a reader of
/// the outside gives is trusted.
#[derive(Drop)]
pub struct StdSource<R: Read + Drop> {
    reader: R,
    faults: Faults,
}

impl<R: Read + Drop> Model for StdSource<R> {
    ghost use Rattle.rep_io.specs.Standard.{Counted};

    ghost Value = { Counted R };

    ghost view = { λ source. record { inner = source.reader; faults = source.faults } };
}

impl<R: Read + Drop> StdSource<R> {
    pub fn new(reader: R) -> StdSource<R>
        ensures inner { result.inner ≡ reader }
        ensures faults { result.faults.count ≡ 0 }
    {
        StdSource {
            reader,
            faults: Faults { count: 0 },
        }
    }
}

impl<R: Read + Drop> Source for StdSource<R> {
    ghost left = { λ _. None };

    ghost fault_count = { λ source. source.faults.count };

    ghost bounded = { λ source. source.faults.fits };

    fn read(&mut self, buf: &mut [u8]) -> Result<usize, ReadFailed>
        requires { 0 < length buf.old }
        ensures within { IfOk result (λ n. n ≤ length buf.new) }
        ensures reads { ReadConsumes (R.remaining self.old.inner) (R.remaining self.new.inner)
            result buf.new }
        ensures raises { self.new.faults.count ≡ (if is_err result
            then next_count self.old.faults.count else self.old.faults.count) }
    {
        match self.reader.read(buf) {
            Ok(n) => Ok(n),
            Err(_) => {
                self.faults.raise();
                Err(ReadFailed)
            }
        }
    }

    fn faults(&self) -> u64 {
        self.faults.count
    }
}

/// A sink over a writer, of which one write is one call. It tells nothing of its bytes: what a writer of
/// the outside takes is trusted.
#[derive(Drop)]
pub struct StdSink<W: Write + Drop> {
    writer: W,
    faults: Faults,
}

impl<W: Write + Drop> Model for StdSink<W> {
    ghost use Rattle.rep_io.specs.Standard.{Counted};

    ghost Value = { Counted W };

    ghost view = { λ sink. record { inner = sink.writer; faults = sink.faults } };
}

impl<W: Write + Drop> StdSink<W> {
    pub fn new(writer: W) -> StdSink<W>
        ensures inner { result.inner ≡ writer }
        ensures faults { result.faults.count ≡ 0 }
    {
        StdSink {
            writer,
            faults: Faults { count: 0 },
        }
    }
}

impl<W: Write + Drop> Sink for StdSink<W> {
    ghost held = { λ _. None };

    ghost fault_count = { λ sink. sink.faults.count };

    ghost bounded = { λ sink. sink.faults.fits };

    fn write(&mut self, piece: &[u8]) -> Result<usize, WriteFailed>
        ensures within { IfOk result (λ n. n ≤ length piece.now) }
        ensures writes { WriteAppends (W.contents self.old.inner) (W.contents self.new.inner)
            result piece.now }
        ensures raises { self.new.faults.count ≡ (if is_fault (length piece.now) result
            then next_count self.old.faults.count else self.old.faults.count) }
    {
        match self.writer.write(piece) {
            Ok(n) => {
                if n == 0 && !piece.is_empty() {
                    self.faults.raise();
                }
                Ok(n)
            }
            Err(_) => {
                self.faults.raise();
                Err(WriteFailed)
            }
        }
    }

    fn faults(&self) -> u64 {
        self.faults.count
    }
}
