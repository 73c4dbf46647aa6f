// What a line means.
ghost use Rattle.std.specs.Prelude.{◌≡◌, IfOk};
ghost use Rattle.std.specs.List.{list_all};
ghost use Rattle.script_text.specs.Grammar.{is_printable, is_in, known_head, of_command, meaning, barred, head_line, words_line, line_meaning};
ghost use Rattle.script_text.specs.Lines.{begins_with};
ghost use Rattle.script_text.specs.Words.{words_of};

use crate::head::{Alone, Head, head_of, is_barred, is_performed};
use crate::kept::{get, peer, show, split, table};
use crate::put::put;
use crate::read::{
    alone, claim, fail, keep, merge, on_cluster, on_flight, on_peer, on_place, on_queue, on_region,
    on_server, send, transit,
};
use crate::words::first_word;
use crate::{Command, Input, Rule};
use rep_types::Memory;
use std::alloc::Global;

/// A line's command, and the bytes that the repeated values up to it stand for.
#[derive(Drop)]
pub struct Made {
    pub command: Option<Command>,
    pub repeated: u32,
}

/// What the lines before a line leave.
#[derive(Clone, Copy)]
pub struct Before {
    /// The bytes that the repeated values stand for.
    pub repeated: u32,
    /// A line `--` stood.
    pub divided: bool,
    /// The number of the second such line.
    pub second: Option<u32>,
}

fn is_printable(line: &[u8]) -> bool
    ensures { result ≡ list_all is_printable line.now }
{
    line.iter().all(|b| 32 <= *b && *b <= 126)
}

fn begins_with(word: &[u8], byte: u8) -> bool
    ensures { result ≡ begins_with byte word.now }
{
    match word {
        [first, ..] => *first == byte,
        [] => false,
    }
}

fn is_in(input: Input, head: Head) -> bool
    ensures { result ≡ is_in input head }
{
    match (input, head) {
        (Input::Run, Head::Alone(Alone::Divider)) => false,
        _ => true,
    }
}

#[tactic(auto, unfolding(crate::specs::Grammar::known_head))]
fn known_head(input: Input, word: &[u8]) -> Option<Head>
    ensures { result ≡ known_head input word.now }
{
    let head = head_of(word)?;
    if is_performed(head) && is_in(input, head) {
        Some(head)
    } else {
        None
    }
}

fn of_command(repeated: u32, reading: Result<Command, Rule>) -> Result<Made, Rule>
    ensures { result ≡ of_command repeated reading }
{
    let command = reading?;
    Ok(Made {
        command: Some(command),
        repeated,
    })
}

// What the words behind a first word mean.
#[tactic(auto, unfolding(crate::specs::Grammar::meaning))]
pub fn meaning(
    alloc: Global,
    repeated: u32,
    head: Head,
    text: &[u8],
) -> Result<Result<Made, Rule>, Memory>
    ensures { IfOk result (λ made. made ≡ meaning repeated head (words_of text.now)) }
{
    let reading = match head {
        Head::OnCluster(word) => on_cluster(word, text),
        Head::OnServer(word) => on_server(word, text),
        Head::OnRegion(word) => on_region(word, text),
        Head::OnPeer(word) => on_peer(word, text),
        Head::OnQueue(word) => on_queue(word, text),
        Head::OnPlace(word) => on_place(word, text),
        Head::OnFlight(word) => on_flight(word, text),
        Head::Alone(word) => alone(word, text),
        Head::Put => return put(alloc, repeated, text),
        Head::Table => table(alloc, text)?,
        Head::Get => get(alloc, text)?,
        Head::Show => show(alloc, text)?,
        Head::Split => split(alloc, text)?,
        Head::Peer => peer(alloc, text)?,
        Head::Merge => merge(text),
        Head::Send => send(text),
        Head::Claim => claim(text),
        Head::TransitBegin => transit(text),
        Head::Fail => fail(text),
        Head::Keep => keep(text),
    };
    Ok(of_command(repeated, reading))
}

fn barred(is_barred: bool, reading: Result<Made, Rule>) -> Result<Made, Rule>
    ensures { result ≡ barred is_barred reading }
{
    if !is_barred {
        return reading;
    }
    match reading {
        Err(Rule::Words) => Err(Rule::Words),
        _ => Err(Rule::Behind),
    }
}

fn head_line(
    alloc: Global,
    before: Before,
    head: Option<Head>,
    text: &[u8],
) -> Result<Result<Made, Rule>, Memory>
    ensures { IfOk result (λ made. made ≡ head_line before head (words_of text.now)) }
{
    let Some(head) = head else {
        return Ok(Err(Rule::Words));
    };
    let reading = meaning(alloc, before.repeated, head, text)?;
    Ok(barred(before.divided && is_barred(head), reading))
}

#[tactic(auto, unfolding(crate::specs::Grammar::words_line))]
fn words_line(
    alloc: Global,
    input: Input,
    before: Before,
    line: &[u8],
) -> Result<Result<Made, Rule>, Memory>
    ensures { IfOk result (λ made. made ≡ words_line input before (words_of line.now)) }
{
    let Some((word, rest)) = first_word(line) else {
        return Ok(Ok(Made {
            command: None,
            repeated: before.repeated,
        }));
    };
    if begins_with(word, b'#') {
        return Ok(Ok(Made {
            command: None,
            repeated: before.repeated,
        }));
    }
    head_line(alloc, before, known_head(input, word), rest)
}

/// The command of a line, or the first rule that it breaks.
#[tactic(auto, unfolding(crate::specs::Grammar::line_meaning))]
pub fn line_meaning(
    alloc: Global,
    input: Input,
    before: Before,
    line: &[u8],
) -> Result<Result<Made, Rule>, Memory>
    ensures { IfOk result (λ made. made ≡ line_meaning input before line.now) }
{
    if is_printable(line) {
        words_line(alloc, input, before, line)
    } else {
        Ok(Err(Rule::Byte))
    }
}
