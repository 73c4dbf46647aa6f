ghost use Rattle.std.specs.Prelude.{◌≡◌, ◌+◌, ◌^◌, ◌<◌, ◌++◌, [], length, IfOk, IfErr, OnOk, Ok, Err};
ghost use Rattle.std.specs.Option.{option_to_list};
ghost use Rattle.script_text.specs.Grammar.{after, ended, is_divider, script, IsScript};
ghost use Rattle.script_text.specs.Lines.{lines_of};
ghost use Rattle.script_text.specs.Parsing.{Explains, rule_number};

use crate::line::{Before, Made, line_meaning};
use crate::lines::first_line;
use crate::{Command, Commands, Input, Rule};
use rep_types::{Items, Memory};
use std::alloc::Global;
use thiserror::Error;

/// Why a text isn't performed.
#[derive(Debug, Drop, Error)]
pub enum ParseError {
    /// The first line outside the grammar, counted from 1, and the first rule that it breaks.
    #[error("line {line}: rule {rule}")]
    Syntax { line: u32, rule: u16 },
    #[error("out of memory")]
    Memory,
}

impl From<Memory> for ParseError {
    ghost use Rattle.script_text.specs.declared.parser.ParseError.TheVariants as refusal;

    ghost from_gives = { λ _ e. e ≡ refusal.Memory };

    fn from(_: Memory) -> ParseError {
        ParseError::Memory
    }
}

fn fault(line: u32, rule: Rule) -> ParseError
    ensures { result ≡ ParseError.Syntax line (rule_number rule) }
{
    ParseError::Syntax {
        line,
        rule: rule.number(),
    }
}

fn is_divider(command: &Option<Command>) -> bool
    ensures { result ≡ is_divider command.now }
{
    matches!(command, Some(Command::Divider))
}

#[tactic(auto, unfolding(crate::specs::Grammar::after))]
fn after(number: u32, before: Before, made: &Made) -> Before
    ensures { result ≡ after number before made.now }
{
    let divides = is_divider(&made.command);
    let second = if before.divided && divides {
        Some(number)
    } else {
        None
    };
    Before {
        repeated: made.repeated,
        divided: before.divided || divides,
        second: before.second.or(second),
    }
}

// Behind the last line, whose number is one less.
fn ended(input: Input, number: u32, before: Before) -> Result<(), ParseError>
    ensures ok { IfOk result (λ _. ended input number before ≡ Ok []) }
    ensures refused { IfErr result (λ e. ended input number before ≡ Err e) }
{
    match (input, before.second) {
        (Input::Run, _) => Ok(()),
        (Input::Live, _) if !before.divided => Err(fault(number, Rule::Divider)),
        (Input::Live, Some(second)) => Err(fault(second, Rule::Divider)),
        (Input::Live, None) => Ok(()),
    }
}

fn add(commands: &mut Commands, command: Option<Command>) -> Result<(), Memory>
    ensures { OnOk result (commands.new ≡ commands.old ++ option_to_list command) }
{
    match command {
        Some(command) => commands.push(command),
        None => Ok(()),
    }
}

/// The commands of a script, or the first line outside the grammar with the first rule that it breaks.
pub fn parse(alloc: Global, text: &[u8], input: Input) -> Result<Commands, ParseError>
    requires { length text.now + 1 < 2 ^ 32 }
    ensures commands { IfOk result (λ commands. IsScript input (lines_of text.now) commands) }
    ensures refused { IfErr result (λ e. Explains (script input (lines_of text.now)) e) }
{
    let mut commands = Items::new(alloc);
    let mut rest = text;
    let mut number = 1u32;
    let mut before = Before {
        repeated: 0,
        divided: false,
        second: None,
    };
    while !rest.is_empty() {
        let (line, behind) = first_line(rest);
        let made = match line_meaning(alloc, input, before, line)? {
            Ok(made) => made,
            Err(rule) => return Err(fault(number, rule)),
        };
        before = after(number, before, &made);
        add(&mut commands, made.command)?;
        number += 1;
        rest = behind;
    }
    match ended(input, number, before) {
        Ok(()) => Ok(commands),
        Err(e) => Err(e),
    }
}
