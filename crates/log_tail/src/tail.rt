ghost use Rattle.std.specs.Prelude.{◌≡◌, ◌+◌, ◌<◌, ◌≤◌, ℕ, true, false, [], ◌++◌, length, IfOk, take, drop};
ghost use mathlib.Core.List.{IsPrefix};
ghost use Rattle.log_tail.specs.Knowing.{is_set, with_ready, with_checked, with_read, LooksTo};
ghost use Rattle.log_tail.specs.Tails.{capacity_of, IsPenOf, IsReaderOf, published, is_closed, words_read, looks_of, got_end, Answers};

use crate::rule::{Checks, Closes, Knows, Looks, Parts, Publishes, Readies, Reads, Seats};
use crate::table::LogTail;
use atomic_table::{Seat, Table};
use std::alloc::{AllocError, Global};

const LENGTH: usize = 0;

const CLOSED: usize = 1;

const WORDS: usize = 2;

/// The right to publish.
#[derive(Drop)]
pub struct Pen {
    seat: Seat<u8, Knows>,
    count: usize,
}

/// A place in the words.
#[derive(Drop)]
pub struct Reader {
    seat: Seat<u8, Knows>,
    place: usize,
}

/// What a poll found.
#[derive(Clone, Copy, PartialEq, Eq)]
pub enum Polled {
    /// So many words, at least 1, stand at the front of the buffer.
    Words(usize),
    /// No word behind those read, and the tail was open.
    NotYet,
    /// No word behind those read, and there will be none.
    End,
}

impl LogTail {
    /// A tail for at most `capacity` words, at most 8,192 of them, and its one pen. Fails for want of memory alone.
    pub fn new(alloc: Global, capacity: usize) -> Result<(LogTail, Pen), AllocError>
        requires { capacity ≤ 8192 }
        ensures capacity { IfOk result (λ made. capacity_of made.0 ≡ capacity) }
        ensures pen { IfOk result (λ made. IsPenOf made.0 made.1) }
        ensures empty { IfOk result (λ made. (published made.1 ≡ []) × (is_closed made.1 ≡ false)) }
    {
        let words = Vec::from_elem(alloc, 0, capacity + WORDS)?;
        let (table, seat) = Table::of_words(alloc, words.as_slice(), &capacity)?;
        Ok((LogTail { table }, Pen { seat, count: 0 }))
    }

    // Stores words behind the published ones, from this word of the table on.
    fn write(&self, seat: &mut Seat<u8, Knows>, from: usize, words: &[u64])
        requires table { seat.old.table_id ≡ self.now.table.shared.table_id }
        requires pen { (seat.old.me.0.writes ≡ true) × (seat.old.me.0.reads ≡ false) × (seat.old.me.0.ready ≡ []) }
        requires place { from ≡ length seat.old.me.0.log + 2 }
        requires room { from + length words.now ≤ capacity_of self.now + 2 }
        ensures table { seat.new.table_id ≡ seat.old.table_id }
        ensures stored { seat.new.me ≡ (with_ready seat.old.me.0 words.now, seat.old.me.1) }
    {
        for i in 0..words.len() {
            self.table.shared.store::<Readies>(seat, from + i, words[i]);
        }
    }

    /// Publishes words behind the others. Readers see all of them or none.
    pub fn publish(&self, pen: &mut Pen, words: &[u64])
        requires pen { IsPenOf self.now pen.old }
        requires open { is_closed pen.old ≡ false }
        requires room { length (published pen.old) + length words.now ≤ capacity_of self.now }
        ensures pen { IsPenOf self.now pen.new }
        ensures open { is_closed pen.new ≡ false }
        ensures published { published pen.new ≡ published pen.old ++ words.now }
    {
        self.write(&mut pen.seat, WORDS + pen.count, words);
        pen.count += words.len();
        self.table
            .shared
            .store::<Publishes>(&mut pen.seat, LENGTH, pen.count as u64);
    }

    /// Closes the tail: nothing more is published. Of a closed one it changes nothing.
    pub fn close(&self, pen: &mut Pen)
        requires { IsPenOf self.now pen.old }
        ensures pen { IsPenOf self.now pen.new }
        ensures closed { is_closed pen.new ≡ true }
        ensures unchanged { published pen.new ≡ published pen.old }
    {
        self.table.shared.store::<Closes>(&mut pen.seat, CLOSED, 1);
    }

    /// A reader, which begins with the first word.
    pub fn reader(&self, pen: &mut Pen) -> Reader
        requires { IsPenOf self.now pen.old }
        ensures pen { IsPenOf self.now pen.new }
        ensures unchanged { (published pen.new ≡ published pen.old) × (is_closed pen.new ≡ is_closed pen.old) }
        ensures reader { IsReaderOf self.now result }
        ensures fresh { (words_read result ≡ []) × (got_end result ≡ false) }
    {
        let seat = self.table.shared.split_seat::<Seats>(&mut pen.seat);
        Reader { seat, place: 0 }
    }

    /// The reader ends, and the pen learns that it had read a beginning of what is published, and all of it where a poll answered End.
    pub fn leave(&self, pen: &mut Pen, reader: Reader)
        requires pen { IsPenOf self.now pen.old }
        requires reader { IsReaderOf self.now reader }
        ensures pen { IsPenOf self.now pen.new }
        ensures unchanged { (published pen.new ≡ published pen.old) × (is_closed pen.new ≡ is_closed pen.old) }
        ensures prefix { IsPrefix (words_read reader) (published pen.new) }
        ensures whole { got_end reader ≡ true → words_read reader ≡ published pen.new }
        ensures closed { got_end reader ≡ true → is_closed pen.new ≡ true }
    {
        let Reader { seat, place: _ } = reader;
        self.table.shared.join_seat::<Seats>(&mut pen.seat, seat);
        self.table.shared.load::<Parts>(&mut pen.seat, LENGTH);
    }

    // Loads the closed word, and then the length.
    fn look(&self, seat: &mut Seat<u8, Knows>) -> (bool, usize)
        requires table { seat.old.table_id ≡ self.now.table.shared.table_id }
        requires reader { (seat.old.me.0.reads ≡ true) × (seat.old.me.0.writes ≡ false) × (seat.old.me.0.capacity ≡ capacity_of self.now) }
        ensures table { (seat.new.table_id ≡ seat.old.table_id) × (seat.new.me.1 ≡ seat.old.me.1) }
        ensures looked { (n : ℕ) × (result.0 ≡ is_set n) × LooksTo (with_checked seat.old.me.0 n) result.1 seat.new.me.0 }
    {
        let closed = self.table.shared.load::<Checks>(seat, CLOSED);
        let length = self.table.shared.load::<Looks>(seat, LENGTH);
        (closed == 1, length as usize)
    }

    // Loads so many words, from this word of the table on.
    fn read(&self, seat: &mut Seat<u8, Knows>, from: usize, out: &mut [u64], count: usize)
        requires table { seat.old.table_id ≡ self.now.table.shared.table_id }
        requires reader { (seat.old.me.0.reads ≡ true) × (seat.old.me.0.writes ≡ false) }
        requires place { from ≡ length seat.old.me.0.read + 2 }
        requires seen { (length seat.old.me.0.read + count ≤ length seat.old.me.0.log) × (length seat.old.me.0.log ≤ capacity_of self.now) }
        requires room { count ≤ length out.old }
        ensures table { seat.new.table_id ≡ seat.old.table_id }
        ensures loaded { seat.new.me ≡ (with_read seat.old.me.0 (take count out.new), seat.old.me.1) }
        ensures rest { (length out.new ≡ length out.old) × (drop count out.new ≡ drop count out.old) }
    {
        for i in 0..count {
            out[i] = self.table.shared.load::<Reads>(seat, from + i);
        }
    }

    /// Gives the next words that are published, as many as the buffer has room for, and else says whether there may be more. It loads the closed word
    /// first and then the length, so that no word is missed at the end.
    pub fn poll(&self, reader: &mut Reader, out: &mut [u64]) -> Polled
        requires reader { IsReaderOf self.now reader.old }
        requires room { 0 < length out.old }
        ensures reader { IsReaderOf self.now reader.new }
        ensures looked { looks_of reader.new ≡ looks_of reader.old + 1 }
        ensures length { length out.new ≡ length out.old }
        ensures answer { Answers reader.old out.old reader.new out.new result }
    {
        let (closed, length) = self.look(&mut reader.seat);
        if length == reader.place {
            return if closed { Polled::End } else { Polled::NotYet };
        }
        let count = (length - reader.place).min(out.len());
        self.read(&mut reader.seat, WORDS + reader.place, out, count);
        reader.place += count;
        Polled::Words(count)
    }
}
