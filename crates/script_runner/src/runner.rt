ghost use Rattle.std.specs.Prelude.{◌≡◌, ◌↔◌, ◌<◌, ◌≤◌, ◌*◌, ◌-◌, ◌^◌, ℕ, List, [], true, false, length, IfSome, Some};
ghost use Rattle.std.specs.List.{list_all};
ghost use Rattle.rep_io.specs.Io.{Rose, GivesSome, IsAtEnd, Appends, AppendsPart};
ghost use Rattle.rep_types.specs.declared.ids.Cluster.TheVariants as cluster;
ghost use Rattle.rep_vault.specs.New.{IsNew};
ghost use Rattle.pair_core.specs.Pair.{both};
ghost use Rattle.script_text.specs.Lines.{lines_of};
ghost use Rattle.script_text.specs.Grammar.{IsScript, IsFault};
ghost use Rattle.script_runner.specs.Answers.{is_run, IsOfScript, IsOfCommands, IsOfText, IsOfRun, IsOfFault, IsOfLong, Writes, Ends, Refuses};
ghost use Rattle.script_runner.specs.Plans.{Planned};
ghost use Rattle.script_runner.specs.Ran.{Performed, Ran, RanInPart};
ghost use Rattle.script_runner.specs.Served.{is_served};
ghost use Rattle.script_runner.specs.Underway.{Left};

use crate::perform::perform_all;
use pair_core::{NoPair, Pair};
use rep_io::{ReadError, Sink, Source, read_all, write_all};
use rep_types::{Argv, Status};
use rep_vault::{Outcome, Vault};
use script_text::{Command, Input, ParseError, parse};
use std::alloc::Global;

// The longest input, in bytes.
const MOST: usize = 1_048_576;

fn is_run(words: &Argv) -> bool
    ensures { result ≡ is_run words.now }
{
    match words.as_slice() {
        [word] => word.as_str() == "run",
        _ => false,
    }
}

// Performs the commands, then writes what happened.
fn perform_and_write<V: Vault, K: Sink>(
    alloc: Global,
    pair: &mut Pair<V>,
    commands: &[Command],
    out: &mut K,
) -> Status
    requires served { list_all is_served commands.now ≡ true }
    requires room { 64 * length commands.now < 2 ^ 32 - 65 }
    requires fresh { pair.old.journal ≡ [] }
    requires usable { pair.old.spent ≡ false }
    requires planned_a { Planned cluster.A [] (V.tally pair.old.a) }
    requires planned_b { Planned cluster.B [] (V.tally pair.old.b) }
    ensures ok { result ≡ Status.Ok → Left commands.now (Appends (K.held out.old) (K.held out.new)) pair.new.journal pair.new.spent (V.tally pair.new.a) (V.tally pair.new.b) }
    ensures part { result ≡ Status.WriteFault → Left commands.now (AppendsPart (K.held out.old) (K.held out.new)) pair.new.journal pair.new.spent (V.tally pair.new.a) (V.tally pair.new.b) }
    ensures unwritten { ¬ Writes result → K.held out.new ≡ K.held out.old }
    ensures write_fault { result ≡ Status.WriteFault → Rose (K.fault_count out.old) (K.fault_count out.new) }
    ensures answers { IsOfCommands result }
{
    let mut text = Vec::new(alloc);
    if perform_all(alloc, pair, commands, &mut text).is_err() {
        return Status::Memory;
    }
    if write_all(out, &text).is_err() {
        return Status::WriteFault;
    }
    Status::Ok
}

// The same on two clusters over these stores, which are handed back.
fn run_commands<K: Sink, V: Vault>(
    alloc: Global,
    commands: &[Command],
    out: &mut K,
    a: V,
    b: V,
) -> Outcome<V>
    requires served { list_all is_served commands.now ≡ true }
    requires room { 64 * length commands.now < 2 ^ 32 - 65 }
    requires a_is_new { IsNew (V.contents a) (V.tally a) }
    requires b_is_new { IsNew (V.contents b) (V.tally b) }
    ensures ok { result.status ≡ Status.Ok
        → Performed commands.now (Appends (K.held out.old) (K.held out.new)) (both V.contents result.a result.b) (both V.tally result.a result.b) }
    ensures part { result.status ≡ Status.WriteFault
        → Performed commands.now (AppendsPart (K.held out.old) (K.held out.new)) (both V.contents result.a result.b) (both V.tally result.a result.b) }
    ensures unwritten { ¬ Writes result.status → K.held out.new ≡ K.held out.old }
    ensures write_fault { result.status ≡ Status.WriteFault → Rose (K.fault_count out.old) (K.fault_count out.new) }
    ensures answers { IsOfCommands result.status }
{
    match Pair::new(alloc, a, b) {
        Ok(mut pair) => {
            let status = perform_and_write(alloc, &mut pair, commands, out);
            let stores = pair.into_stores();
            Outcome {
                status,
                a: stores.a,
                b: stores.b,
            }
        }
        Err(NoPair { a, b }) => Outcome {
            status: Status::Memory,
            a,
            b,
        },
    }
}

// Reads the commands, performs them, then writes what happened.
fn run_text<K: Sink, V: Vault>(alloc: Global, text: &[u8], out: &mut K, a: V, b: V) -> Outcome<V>
    requires few { length text.now ≤ 1048576 }
    requires a_is_new { IsNew (V.contents a) (V.tally a) }
    requires b_is_new { IsNew (V.contents b) (V.tally b) }
    ensures ok { result.status ≡ Status.Ok
        → Ran (Some text.now) (K.held out.old) (K.held out.new) (both V.contents result.a result.b) (both V.tally result.a result.b) }
    ensures part { result.status ≡ Status.WriteFault
        → RanInPart (Some text.now) (K.held out.old) (K.held out.new) (both V.contents result.a result.b) (both V.tally result.a result.b) }
    ensures a_stays { Refuses result.status → result.a ≡ a }
    ensures b_stays { Refuses result.status → result.b ≡ b }
    ensures unwritten { ¬ Writes result.status → K.held out.new ≡ K.held out.old }
    ensures syntax { (line rule : ℕ) → result.status ≡ Status.Syntax line rule → IsFault Input.Run (lines_of text.now) line rule }
    ensures refused { (line rule : ℕ) → IsFault Input.Run (lines_of text.now) line rule → IsOfFault line rule result.status }
    ensures complete { (commands : List Command) → IsScript Input.Run (lines_of text.now) commands → IsOfCommands result.status }
    ensures write_fault { result.status ≡ Status.WriteFault → Rose (K.fault_count out.old) (K.fault_count out.new) }
    ensures ends { IsOfText result.status }
{
    match parse(alloc, text, Input::Run) {
        Ok(commands) => run_commands(alloc, commands.as_slice(), out, a, b),
        Err(ParseError::Syntax { line, rule }) => Outcome {
            status: Status::Syntax { line, rule },
            a,
            b,
        },
        Err(ParseError::Memory) => Outcome {
            status: Status::Memory,
            a,
            b,
        },
    }
}

/// Serves the words `run`: reads a script to its end, performs it on two clusters over these stores, and then writes a line for
/// each event with its reply, the cells that are shown, and views. It asks for at most 1,048,577 bytes, and each of its reads and
/// writes but the last moves at least one. The order of answers is BadWords, then ReadFault or TooLong, whichever is met first
/// while reading, then Syntax, then what the performance gives. Both stores are as new, and are handed back with what the
/// performance left in them.
pub fn run<S: Source, K: Sink, V: Vault>(
    alloc: Global,
    words: &Argv,
    input: &mut S,
    out: &mut K,
    a: V,
    b: V,
) -> Outcome<V>
    requires a_is_new { IsNew (V.contents a) (V.tally a) }
    requires b_is_new { IsNew (V.contents b) (V.tally b) }
    // What it did.
    ensures ok { result.status ≡ Status.Ok
        → Ran (S.left input.old) (K.held out.old) (K.held out.new) (both V.contents result.a result.b) (both V.tally result.a result.b) }
    ensures part { result.status ≡ Status.WriteFault
        → RanInPart (S.left input.old) (K.held out.old) (K.held out.new) (both V.contents result.a result.b) (both V.tally result.a result.b) }
    ensures a_stays { Refuses result.status → result.a ≡ a }
    ensures b_stays { Refuses result.status → result.b ≡ b }
    ensures unwritten { ¬ Writes result.status → K.held out.new ≡ K.held out.old }
    ensures read { GivesSome (S.left input.old) (S.left input.new) (λ n. n ≤ 1048577) }
    ensures unread { result.status ≡ Status.BadWords → S.left input.new ≡ S.left input.old }
    ensures end { Ends result.status → IsAtEnd (S.left input.new) }

    // When each answer comes.
    ensures bad_words { result.status ≡ Status.BadWords ↔ (is_run words.now ≡ false) }
    ensures syntax { (line rule : ℕ) → result.status ≡ Status.Syntax line rule
        → IfSome (S.left input.old) (λ text. IsFault Input.Run (lines_of text) line rule) }
    ensures too_long { result.status ≡ Status.TooLong → IfSome (S.left input.old) (λ text. 1048576 < length text) }
    ensures read_fault { result.status ≡ Status.ReadFault → Rose (S.fault_count input.old) (S.fault_count input.new) }
    ensures write_fault { result.status ≡ Status.WriteFault → Rose (K.fault_count out.old) (K.fault_count out.new) }
    ensures never { IsOfRun result.status }

    // What is answered for each text, where the words are served.
    ensures complete { (text : List ℕ) (commands : List Command) → is_run words.now ≡ true → S.left input.old ≡ Some text
        → length text ≤ 1048576 → IsScript Input.Run (lines_of text) commands → IsOfScript result.status }
    ensures refused { (text : List ℕ) (line rule : ℕ) → is_run words.now ≡ true → S.left input.old ≡ Some text
        → length text ≤ 1048576 → IsFault Input.Run (lines_of text) line rule → IsOfFault line rule result.status }
    ensures cut_off { (text : List ℕ) → is_run words.now ≡ true → S.left input.old ≡ Some text
        → 1048576 < length text → IsOfLong result.status }
{
    if !is_run(words) {
        return Outcome {
            status: Status::BadWords,
            a,
            b,
        };
    }
    let status = match read_all(alloc, input, MOST) {
        Ok(text) => return run_text(alloc, text.as_slice(), out, a, b),
        Err(ReadError::Failed) => Status::ReadFault,
        Err(ReadError::TooLong) => Status::TooLong,
        Err(ReadError::Memory) => Status::Memory,
    };
    Outcome { status, a, b }
}
