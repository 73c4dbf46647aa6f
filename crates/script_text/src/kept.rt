// The commands that keep texts of their words.
#![tactic(auto, unfolding(crate::specs::Meanings::show, crate::specs::Meanings::get, crate::specs::Meanings::split, crate::specs::Meanings::table, crate::specs::Meanings::peer))]

ghost use Rattle.std.specs.Prelude.{◌≡◌, IfOk};
ghost use Rattle.script_text.specs.Meanings.{show, get, split, table, performed_kind, peer};
ghost use Rattle.script_text.specs.Words.{words_of};

use crate::forms::{key_word, kind_word, name_word, peer_word, region_word};
use crate::head::is_performed_kind;
use crate::lists::{specs_word, tables_word};
use crate::read::{cluster_and_one, cluster_and_three, cluster_and_two};
use crate::{Command, Rule};
use rep_types::{Event, Kind, Memory};
use std::alloc::Global;

pub fn show(alloc: Global, text: &[u8]) -> Result<Result<Command, Rule>, Memory>
    ensures { IfOk result (λ made. made ≡ show (words_of text.now)) }
{
    let (cluster, table) = match cluster_and_one(text) {
        Ok(words) => words,
        Err(rule) => return Ok(Err(rule)),
    };
    match name_word(alloc, table)? {
        Ok(table) => Ok(Ok(Command::Single(Event::Show { cluster, table }))),
        Err(rule) => Ok(Err(rule)),
    }
}

pub fn get(alloc: Global, text: &[u8]) -> Result<Result<Command, Rule>, Memory>
    ensures { IfOk result (λ made. made ≡ get (words_of text.now)) }
{
    let (cluster, table, row) = match cluster_and_two(text) {
        Ok(words) => words,
        Err(rule) => return Ok(Err(rule)),
    };
    let table = match name_word(alloc, table)? {
        Ok(table) => table,
        Err(rule) => return Ok(Err(rule)),
    };
    match key_word(alloc, row)? {
        Ok(row) => Ok(Ok(Command::Single(Event::Get {
            cluster,
            table,
            row,
        }))),
        Err(rule) => Ok(Err(rule)),
    }
}

pub fn split(alloc: Global, text: &[u8]) -> Result<Result<Command, Rule>, Memory>
    ensures { IfOk result (λ made. made ≡ split (words_of text.now)) }
{
    let (cluster, region, key) = match cluster_and_two(text) {
        Ok(words) => words,
        Err(rule) => return Ok(Err(rule)),
    };
    let region = match region_word(region) {
        Ok(region) => region,
        Err(rule) => return Ok(Err(rule)),
    };
    match key_word(alloc, key)? {
        Ok(key) => Ok(Ok(Command::Single(Event::Split {
            cluster,
            region,
            key,
        }))),
        Err(rule) => Ok(Err(rule)),
    }
}

pub fn table(alloc: Global, text: &[u8]) -> Result<Result<Command, Rule>, Memory>
    ensures { IfOk result (λ made. made ≡ table (words_of text.now)) }
{
    let (cluster, table, specs) = match cluster_and_two(text) {
        Ok(words) => words,
        Err(rule) => return Ok(Err(rule)),
    };
    let table = match name_word(alloc, table)? {
        Ok(table) => table,
        Err(rule) => return Ok(Err(rule)),
    };
    match specs_word(alloc, specs)? {
        Ok(specs) => Ok(Ok(Command::Single(Event::Table {
            cluster,
            table,
            specs,
        }))),
        Err(rule) => Ok(Err(rule)),
    }
}

// The kind that a word is, if the program adds peers of it.
#[tactic(auto, unfolding(crate::specs::Meanings::performed_kind))]
fn performed_kind(word: &[u8]) -> Result<Kind, Rule>
    ensures { result ≡ performed_kind word.now }
{
    let kind = kind_word(word)?;
    if is_performed_kind(kind) {
        Ok(kind)
    } else {
        Err(Rule::Words)
    }
}

pub fn peer(alloc: Global, text: &[u8]) -> Result<Result<Command, Rule>, Memory>
    ensures { IfOk result (λ made. made ≡ peer (words_of text.now)) }
{
    let (cluster, peer, kind, tables) = match cluster_and_three(text) {
        Ok(words) => words,
        Err(rule) => return Ok(Err(rule)),
    };
    let peer = match peer_word(peer) {
        Ok(peer) => peer,
        Err(rule) => return Ok(Err(rule)),
    };
    let kind = match performed_kind(kind) {
        Ok(kind) => kind,
        Err(rule) => return Ok(Err(rule)),
    };
    match tables_word(alloc, tables)? {
        Ok(tables) => Ok(Ok(Command::Single(Event::Peer {
            cluster,
            peer,
            kind,
            tables,
        }))),
        Err(rule) => Ok(Err(rule)),
    }
}
