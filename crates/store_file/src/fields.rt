ghost use Rattle.std.specs.Prelude.{◌≡◌, ◌≤◌, ◌<◌, ◌^◌, length, IfSome};
ghost use Rattle.store_file.specs.Fields.{front, number, text, rank_bytes, value_bytes, fields};
ghost use Rattle.store_file.specs.Steps.{Gives, fields_value};

use byteorder::{BigEndian, ByteOrder};
use rep_types::Rank;

/// The fields of a cell, allowed or not; of what isn't a put the value is empty.
#[derive(Clone, Copy)]
pub struct Fields<'a> {
    pub row: &'a [u8],
    pub family: &'a [u8],
    pub qualifier: &'a [u8],
    pub stamp: u64,
    pub kind: u64,
    pub rank: Rank,
    pub value: &'a [u8],
}

// The first bytes, and those after them; None where there are fewer.
#[tactic(auto, unfolding(crate::specs::Fields::front))]
fn front<'a>(bytes: &'a [u8], size: usize) -> Option<(&'a [u8], &'a [u8])>
    ensures gives { Gives (λ x. record { value = x.0.now; rest = x.1.now }) result (front size bytes.now) }
    ensures size { IfSome result (λ x. length x.0.now ≡ size) }
    ensures shorter { IfSome result (λ x. length x.1.now ≤ length bytes.now) }
{
    if bytes.len() < size {
        return None;
    }
    Some(bytes.split_at(size))
}

// A number of so many bytes.
#[tactic(auto, unfolding(crate::specs::Fields::number))]
fn number<'a>(bytes: &'a [u8], size: usize) -> Option<(u64, &'a [u8])>
    requires some { 1 ≤ size }
    requires few { size ≤ 8 }
    ensures gives { Gives (λ x. record { value = x.0; rest = x.1.now }) result (number size bytes.now) }
    ensures fits { IfSome result (λ x. x.0 < 256 ^ size) }
    ensures shorter { IfSome result (λ x. length x.1.now ≤ length bytes.now) }
{
    let (digits, rest) = front(bytes, size)?;
    Some((BigEndian::read_uint(digits, size), rest))
}

// A text behind its length, which has so many bytes.
#[tactic(auto, unfolding(crate::specs::Fields::text))]
fn text<'a>(bytes: &'a [u8], size: usize) -> Option<(&'a [u8], &'a [u8])>
    requires some { 1 ≤ size }
    requires few { size ≤ 8 }
    ensures gives { Gives (λ x. record { value = x.0.now; rest = x.1.now }) result (text size bytes.now) }
    ensures shorter { IfSome result (λ x. length x.1.now ≤ length bytes.now) }
{
    let (length, rest) = number(bytes, size)?;
    front(rest, length as usize)
}

#[tactic(auto, unfolding(crate::specs::Fields::rank_bytes))]
fn rank<'a>(bytes: &'a [u8]) -> Option<(Rank, &'a [u8])>
    ensures gives { Gives (λ x. record { value = x.0; rest = x.1.now }) result (rank_bytes bytes.now) }
    ensures shorter { IfSome result (λ x. length x.1.now ≤ length bytes.now) }
{
    let (generation, rest) = number(bytes, 2)?;
    let (seq, rest) = number(rest, 8)?;
    let (replay, rest) = number(rest, 4)?;
    let rank = Rank {
        generation: generation as u16,
        seq,
        replay: replay as u32,
    };
    Some((rank, rest))
}

// The value behind its length; nothing where there is no put.
#[tactic(auto, unfolding(crate::specs::Fields::value_bytes))]
fn value<'a>(bytes: &'a [u8], kind: u64) -> Option<(&'a [u8], &'a [u8])>
    ensures gives { Gives (λ x. record { value = x.0.now; rest = x.1.now }) result (value_bytes kind bytes.now) }
    ensures shorter { IfSome result (λ x. length x.1.now ≤ length bytes.now) }
{
    if kind == 1 {
        text(bytes, 2)
    } else {
        front(bytes, 0)
    }
}

/// The fields of the cell that the bytes begin with, and the bytes after it; None where they end in it.
#[tactic(auto, unfolding(crate::specs::Fields::fields))]
pub fn read_fields<'a>(bytes: &'a [u8]) -> Option<(Fields<'a>, &'a [u8])>
    ensures gives { Gives (λ x. record { value = fields_value x.0; rest = x.1.now }) result (fields bytes.now) }
    ensures shorter { IfSome result (λ x. length x.1.now ≤ length bytes.now) }
{
    let (row, rest) = text(bytes, 2)?;
    let (family, rest) = text(rest, 1)?;
    let (qualifier, rest) = text(rest, 1)?;
    let (stamp, rest) = number(rest, 8)?;
    let (kind, rest) = number(rest, 1)?;
    let (rank, rest) = rank(rest)?;
    let (value, rest) = value(rest, kind)?;
    let fields = Fields {
        row,
        family,
        qualifier,
        stamp,
        kind,
        rank,
        value,
    };
    Some((fields, rest))
}
