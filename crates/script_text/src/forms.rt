// The forms of single words.
#![tactic(auto, unfolding(crate::specs::Forms::number_of, crate::specs::Forms::number_word, crate::specs::Forms::cluster_word, crate::specs::Forms::kind_word, crate::specs::Forms::state_word, crate::specs::Forms::call_word))]

ghost use Rattle.std.specs.Prelude.{◌≡◌, ◌+◌, ◌-◌, ◌*◌, ◌^◌, ◌≤◌, ◌<◌, ◌&&◌, nat_le, IfOk, IfSome, Some, None, if◌then◌else◌};
ghost use Rattle.std.specs.Str.{bytes_eq};
ghost use Rattle.script_text.specs.Forms.{is_digit, digits, is_padded, within, number_of, number_word, cluster_word, name_of, name_word, key_word, kind_word, state_word, call_word};

use crate::Rule;
use rep_types::{
    Call, Cluster, Key, Kind, Memory, Name, PeerId, RegionId, ServerId, SyncState, TextError,
};
use std::alloc::Global;
use std::str::from_utf8;

/// Whether the word is this text.
pub fn is_text(word: &[u8], text: &[u8]) -> bool
    ensures { result ≡ bytes_eq word.now text.now }
{
    word == text
}

// The number with one more digit, if it is at most so much.
fn longer(number: u64, digit: u8, most: u64) -> Option<u64>
    requires { digit < 10 }
    ensures { result ≡ (if nat_le (number * 10 + digit) most then Some (number * 10 + digit) else None) }
{
    let tens = number.checked_mul(10)?;
    let longer = tens.checked_add(u64::from(digit))?;
    if longer <= most { Some(longer) } else { None }
}

fn digits(word: &[u8], most: u64) -> Option<u64>
    ensures { result ≡ within 0 most (digits 0 word.now) }
{
    let mut number = 0;
    for b in word {
        if !b.is_ascii_digit() {
            return None;
        }
        match longer(number, *b - b'0', most) {
            Some(longer) => number = longer,
            None => return None,
        }
    }
    Some(number)
}

fn is_padded(word: &[u8]) -> bool
    ensures { result ≡ is_padded word.now }
{
    match word {
        [] => true,
        [_] => false,
        [first, ..] => *first == b'0',
    }
}

/// A number in decimal without leading zeros, within these limits.
pub fn number(word: &[u8], least: u64, most: u64) -> Option<u64>
    ensures number { result ≡ number_of least most word.now }
    ensures least { IfSome result (λ n. least ≤ n) }
    ensures most { IfSome result (λ n. n ≤ most) }
{
    if is_padded(word) {
        return None;
    }
    let number = digits(word, most)?;
    if least <= number { Some(number) } else { None }
}

/// The number of a word within limits below 2 ^ 32.
pub fn number_word(word: &[u8], least: u32, most: u32) -> Result<u32, Rule>
    ensures number { result ≡ number_word least most word.now }
    ensures least { IfOk result (λ n. least ≤ n) }
    ensures most { IfOk result (λ n. n ≤ most) }
{
    match number(word, u64::from(least), u64::from(most)) {
        Some(number) => Ok(number as u32),
        None => Err(Rule::Number),
    }
}

pub fn server_word(word: &[u8]) -> Result<ServerId, Rule>
    ensures { result ≡ number_word 1 64 word.now }
{
    let number = number_word(word, 1, 64)?;
    match ServerId::new(number) {
        Some(server) => Ok(server),
        None => unreachable!(),
    }
}

pub fn region_word(word: &[u8]) -> Result<RegionId, Rule>
    ensures { result ≡ number_word 1 4096 word.now }
{
    let number = number_word(word, 1, 4096)?;
    match RegionId::new(number) {
        Some(region) => Ok(region),
        None => unreachable!(),
    }
}

pub fn peer_word(word: &[u8]) -> Result<PeerId, Rule>
    ensures { result ≡ number_word 1 4 word.now }
{
    let number = number_word(word, 1, 4)?;
    match PeerId::new(number) {
        Some(peer) => Ok(peer),
        None => unreachable!(),
    }
}

pub fn flight_word(word: &[u8]) -> Result<u32, Rule>
    ensures { result ≡ number_word 1 4294967295 word.now }
{
    number_word(word, 1, u32::MAX)
}

pub fn cluster_word(word: &[u8]) -> Result<Cluster, Rule>
    ensures { result ≡ cluster_word word.now }
{
    if is_text(word, b"a") {
        return Ok(Cluster::A);
    }
    if is_text(word, b"b") {
        return Ok(Cluster::B);
    }
    Err(Rule::Cluster)
}

pub fn kind_word(word: &[u8]) -> Result<Kind, Rule>
    ensures { result ≡ kind_word word.now }
{
    if is_text(word, b"plain") {
        return Ok(Kind::Plain);
    }
    if is_text(word, b"serial") {
        return Ok(Kind::Serial);
    }
    if is_text(word, b"sync") {
        return Ok(Kind::Synchronous);
    }
    Err(Rule::Kind)
}

pub fn state_word(word: &[u8]) -> Result<SyncState, Rule>
    ensures { result ≡ state_word word.now }
{
    if is_text(word, b"active") {
        return Ok(SyncState::Active);
    }
    if is_text(word, b"downgrade") {
        return Ok(SyncState::Downgrade);
    }
    if is_text(word, b"standby") {
        return Ok(SyncState::Standby);
    }
    Err(Rule::Kind)
}

pub fn call_word(word: &[u8]) -> Result<Call, Rule>
    ensures { result ≡ call_word word.now }
{
    if is_text(word, b"create") {
        return Ok(Call::Create);
    }
    if is_text(word, b"append") {
        return Ok(Call::Append);
    }
    if is_text(word, b"sync") {
        return Ok(Call::Sync);
    }
    if is_text(word, b"seal") {
        return Ok(Call::Seal);
    }
    if is_text(word, b"read") {
        return Ok(Call::Read);
    }
    if is_text(word, b"make") {
        return Ok(Call::Make);
    }
    if is_text(word, b"rename") {
        return Ok(Call::Rename);
    }
    if is_text(word, b"remove") {
        return Ok(Call::Remove);
    }
    if is_text(word, b"list") {
        return Ok(Call::List);
    }
    if is_text(word, b"put") {
        return Ok(Call::Put);
    }
    Err(Rule::Kind)
}

/// The name that a word is, if it is one.
#[tactic(auto, unfolding(crate::specs::Forms::name_of))]
pub fn name_of(alloc: Global, word: &[u8]) -> Result<Option<Name>, Memory>
    ensures { IfOk result (λ made. made ≡ name_of word.now) }
{
    let Ok(text) = from_utf8(word) else {
        return Ok(None);
    };
    match Name::new(alloc, text) {
        Ok(name) => Ok(Some(name)),
        Err(TextError::Memory) => Err(Memory),
        Err(_) => Ok(None),
    }
}

#[tactic(auto, unfolding(crate::specs::Forms::name_word))]
pub fn name_word(alloc: Global, word: &[u8]) -> Result<Result<Name, Rule>, Memory>
    ensures { IfOk result (λ made. made ≡ name_word word.now) }
{
    match name_of(alloc, word)? {
        Some(name) => Ok(Ok(name)),
        None => Ok(Err(Rule::Name)),
    }
}

#[tactic(auto, unfolding(crate::specs::Forms::key_word))]
pub fn key_word(alloc: Global, word: &[u8]) -> Result<Result<Key, Rule>, Memory>
    ensures { IfOk result (λ made. made ≡ key_word word.now) }
{
    let Ok(text) = from_utf8(word) else {
        return Ok(Err(Rule::Name));
    };
    match Key::new(alloc, text) {
        Ok(key) => Ok(Ok(key)),
        Err(TextError::Memory) => Err(Memory),
        Err(_) => Ok(Err(Rule::Name)),
    }
}
