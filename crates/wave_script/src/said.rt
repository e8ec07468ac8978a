//! What the lines of a script have said so far, and what one more line makes of it.

ghost use Rattle.std.specs.Prelude.{◌≡◌, ◌<◌, ◌^◌, length, drop, IfOk};
ghost use Rattle.wave_script.specs.Answers.{Says, Reads};
ghost use Rattle.wave_script.specs.Lines.{command_of, command_in, line_says, with_command, with_line, nothing};

use crate::command::Command;
use crate::edits::{add_line, del_line, ic_line, model_line, set_line, wave_line};
use crate::pins::Pins;
use crate::requests::request_of;
use crate::script::Script;
use crate::why::{ScriptRefusal, ScriptWhy};
use deck_lexer::{CardLine, begins_with, is_ascii};
use deck_reader::{Word, Words};
use std::alloc::{AllocError, Global};

/// What the lines of a script have said so far.
#[derive(Drop)]
pub struct Said {
    /// The commands, each with its line.
    pub commands: Script,
    /// The names that were pinned, each with whether it is bound now.
    pub pins: Pins,
}

/// The command of a line with this first word, where these names are bound.
#[tactic(auto, unfolding(crate::specs::Lines::command_of))]
fn command_of(
    alloc: Global,
    pins: &Pins,
    first: &Word<'_>,
    line: &CardLine,
) -> Result<Command, ScriptWhy>
    ensures { Says result (command_of pins.now first.now (drop 1 line.now.words)) }
{
    let mut words = Words::of(line, 1);
    if first.is("set") {
        return set_line(alloc, &mut words);
    }
    if first.is("wave") {
        return wave_line(alloc, line);
    }
    if first.is("model") {
        return model_line(alloc, &mut words);
    }
    if first.is("ic") {
        return ic_line(alloc, &mut words);
    }
    if first.is("add") {
        return add_line(alloc, line);
    }
    if first.is("del") {
        return del_line(alloc, &mut words);
    }
    request_of(alloc, pins, first, &mut words)
}

/// The command of the words of a line, if it has any.
#[tactic(auto, using(crate::proofs::LineSays::command_in_ok, crate::proofs::LineSays::command_in_err), unfolding(crate::specs::Lines::command_in))]
fn command_in(alloc: Global, pins: &Pins, line: &CardLine) -> Result<Option<Command>, ScriptWhy>
    ensures { Says result (command_in pins.now line.now.words) }
{
    let mut words = Words::of(line, 0);
    let Some(first) = words.next() else {
        return Ok(None);
    };
    let command = command_of(alloc, pins, &first, line)?;
    Ok(Some(command))
}

/// The command of the bytes of a line of this number, if it has one.
#[tactic(auto, unfolding(crate::specs::Lines::line_says))]
fn line_says(
    alloc: Global,
    pins: &Pins,
    number: u32,
    line: &[u8],
) -> Result<Option<Command>, ScriptWhy>
    requires { length line.now < 2 ^ 32 }
    ensures { Says result (line_says pins.now line.now) }
{
    if begins_with(line, b'*') {
        return Ok(None);
    }
    if !is_ascii(line) {
        return Err(ScriptWhy::NotAscii);
    }
    let card = CardLine::of(alloc, number, line)?;
    command_in(alloc, pins, &card)
}

impl Said {
    /// No line has said anything.
    pub fn new(alloc: Global) -> Said
        ensures { result ≡ nothing }
    {
        Said {
            commands: Script::new(alloc),
            pins: Pins::new(alloc),
        }
    }

    /// What they have said with one more command, if there is one.
    fn with_command(self, line: u32, command: Option<Command>) -> Result<Said, AllocError>
        ensures { IfOk result (λ said. said ≡ with_command self line command) }
    {
        let Some(command) = command else {
            return Ok(self);
        };
        let Said {
            mut commands,
            mut pins,
        } = self;
        pins.note(&command)?;
        commands.push(line, command)?;
        Ok(Said { commands, pins })
    }

    /// What they have said with one more line.
    #[tactic(auto, unfolding(crate::specs::Lines::with_line))]
    pub fn with_line(self, alloc: Global, number: u32, line: &[u8]) -> Result<Said, ScriptRefusal>
        requires { length line.now < 2 ^ 32 }
        ensures { Reads result (with_line self (number, line.now)) }
    {
        match line_says(alloc, &self.pins, number, line) {
            Ok(command) => Ok(self.with_command(number, command)?),
            Err(ScriptWhy::Memory) => Err(ScriptRefusal {
                line: 0,
                why: ScriptWhy::Memory,
            }),
            Err(why) => Err(ScriptRefusal { line: number, why }),
        }
    }
}
