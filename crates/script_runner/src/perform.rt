ghost use Rattle.std.specs.Prelude.{◌≡◌, ◌+◌, ◌-◌, ◌*◌, ◌^◌, ◌<◌, ◌≤◌, [], ◌++◌, true, false, List, drop, length, IfSome, OnOk};
ghost use Rattle.std.specs.List.{list_all};
ghost use Rattle.rep_types.specs.declared.ids.Cluster.TheVariants as cluster;
ghost use Rattle.rep_types.specs.declared.record.Record.{Record};
ghost use Rattle.rep_types.specs.declared.state.Call.{Call};
ghost use Rattle.rep_model.specs.Runs.{IsLegal, state_of};
ghost use Rattle.report_text.specs.Lines.{lines_from};
ghost use Rattle.script_text.specs.Due.{Does};
ghost use Rattle.script_lines.specs.Lines.{command_text};
ghost use Rattle.script_lines.specs.Views.{view_text};
ghost use Rattle.script_runner.specs.Plans.{Plans, Planned};
ghost use Rattle.script_runner.specs.Served.{is_served};
ghost use Rattle.script_runner.specs.Underway.{Printed};

use crate::asked::{asked_servers, next_event};
use pair_core::{Pair, StepError};
use rep_types::{Items, Memory};
use rep_vault::Vault;
use report_text::print_lines;
use script_lines::print_view;
use script_text::Command;
use std::alloc::Global;

// All the events of one command, each once.
fn perform_events<V: Vault>(
    alloc: Global,
    pair: &mut Pair<V>,
    command: &Command,
) -> Result<(), Memory>
    requires served { is_served command.now ≡ true }
    requires usable { pair.old.spent ≡ false }
    requires room { length pair.old.journal + 64 < 2 ^ 32 - 1 }
    ensures performs { OnOk result ((own : List Record)
        × (pair.new.journal ≡ pair.old.journal ++ own) × Does command.now (state_of pair.old.journal) [] own) }
    ensures usable { OnOk result (pair.new.spent ≡ false) }
    ensures few { OnOk result (length pair.new.journal ≤ length pair.old.journal + 64) }
    ensures planned_a { (V.tally pair.new.a).planned ≡ (V.tally pair.old.a).planned }
    ensures planned_b { (V.tally pair.new.b).planned ≡ (V.tally pair.old.b).planned }
{
    let live = asked_servers(alloc, pair, command)?;
    let mut replies = Items::new(alloc);
    while let Some(event) = next_event(alloc, command, live.as_slice(), replies.as_slice())? {
        let reply = match pair.step(alloc, event, 0) {
            Ok(reply) => reply,
            Err(StepError::Memory) => return Err(Memory),
            Err(StepError::Spent) => unreachable!(),
            Err(StepError::Full) => unreachable!(),
        };
        replies.push(reply)?;
    }
    Ok(())
}

// One command: its events, or what it plans for a store.
fn perform<V: Vault>(alloc: Global, pair: &mut Pair<V>, command: &Command) -> Result<(), Memory>
    requires served { is_served command.now ≡ true }
    requires usable { pair.old.spent ≡ false }
    requires room { length pair.old.journal + 64 < 2 ^ 32 - 1 }
    requires room_a { (k : Call) → IfSome (V.tally pair.old.a).planned (λ n. n k < 2 ^ 32 - 1) }
    requires room_b { (k : Call) → IfSome (V.tally pair.old.b).planned (λ n. n k < 2 ^ 32 - 1) }
    ensures performs { OnOk result ((own : List Record)
        × (pair.new.journal ≡ pair.old.journal ++ own) × Does command.now (state_of pair.old.journal) [] own) }
    ensures usable { OnOk result (pair.new.spent ≡ false) }
    ensures few { OnOk result (length pair.new.journal ≤ length pair.old.journal + 64) }
    ensures planned_a { OnOk result (Plans cluster.A command.now (V.tally pair.old.a) (V.tally pair.new.a)) }
    ensures planned_b { OnOk result (Plans cluster.B command.now (V.tally pair.old.b) (V.tally pair.new.b)) }
{
    match command {
        Command::Fail {
            cluster,
            call,
            nth,
            bytes,
        } => pair.plan_failure(*cluster, *call, *nth, *bytes),
        Command::Keep { cluster, bytes } => pair.plan_keep(*cluster, u64::from(*bytes)),
        _ => perform_events(alloc, pair, command),
    }
}

// Adds the lines of the records behind the first so many, and what the command shows of the state after them.
fn print_from<V: Vault>(
    alloc: Global,
    pair: &Pair<V>,
    first: usize,
    command: &Command,
    text: &mut Vec<u8>,
) -> Result<(), Memory>
    requires served { is_served command.now ≡ true }
    requires usable { pair.now.spent ≡ false }
    requires within { first ≤ length pair.now.journal }
    requires room { length pair.now.journal < 2 ^ 32 }
    ensures { OnOk result (text.new.items ≡ text.old.items ++ (lines_from (first + 1) (drop first pair.now.journal)
        ++ view_text command.now (length pair.now.journal) (state_of pair.now.journal))) }
{
    let records = pair.journal();
    print_lines(first as u64 + 1, &records[first..], text)?;
    print_view(alloc, command, pair, text)
}

// One command, whose lines are added to `text`.
fn perform_printed<V: Vault>(
    alloc: Global,
    pair: &mut Pair<V>,
    command: &Command,
    text: &mut Vec<u8>,
) -> Result<(), Memory>
    requires served { is_served command.now ≡ true }
    requires usable { pair.old.spent ≡ false }
    requires room { length pair.old.journal + 64 < 2 ^ 32 - 1 }
    requires room_a { (k : Call) → IfSome (V.tally pair.old.a).planned (λ n. n k < 2 ^ 32 - 1) }
    requires room_b { (k : Call) → IfSome (V.tally pair.old.b).planned (λ n. n k < 2 ^ 32 - 1) }
    ensures printed { OnOk result ((own : List Record) × (pair.new.journal ≡ pair.old.journal ++ own)
        × Does command.now (state_of pair.old.journal) [] own
        × (text.new.items ≡ text.old.items
        ++ command_text command.now (length pair.old.journal) (state_of pair.old.journal) own)) }
    ensures usable { OnOk result (pair.new.spent ≡ false) }
    ensures few { OnOk result (length pair.new.journal ≤ length pair.old.journal + 64) }
    ensures planned_a { OnOk result (Plans cluster.A command.now (V.tally pair.old.a) (V.tally pair.new.a)) }
    ensures planned_b { OnOk result (Plans cluster.B command.now (V.tally pair.old.b) (V.tally pair.new.b)) }
{
    let made = pair.journal().len();
    perform(alloc, pair, command)?;
    print_from(alloc, pair, made, command, text)
}

/// Performs a whole script on clusters with nothing in them, and adds its lines to `text`.
pub fn perform_all<V: Vault>(
    alloc: Global,
    pair: &mut Pair<V>,
    commands: &[Command],
    text: &mut Vec<u8>,
) -> Result<(), Memory>
    requires served { list_all is_served commands.now ≡ true }
    requires room { 64 * length commands.now < 2 ^ 32 - 65 }
    requires fresh { pair.old.journal ≡ [] }
    requires usable { pair.old.spent ≡ false }
    requires planned_a { Planned cluster.A [] (V.tally pair.old.a) }
    requires planned_b { Planned cluster.B [] (V.tally pair.old.b) }
    ensures printed { OnOk result (Printed commands.now pair.new.journal text.old.items text.new.items) }
    ensures usable { OnOk result (pair.new.spent ≡ false) }
    ensures planned_a { OnOk result (Planned cluster.A commands.now (V.tally pair.new.a)) }
    ensures planned_b { OnOk result (Planned cluster.B commands.now (V.tally pair.new.b)) }
{
    for command in commands {
        perform_printed(alloc, pair, command, text)?;
    }
    Ok(())
}
