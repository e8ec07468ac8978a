//! The lines of a script that are no edits, by their words behind the first.

ghost use Rattle.wave_script.specs.Answers.{Says};
ghost use Rattle.wave_script.specs.Requests.{lone_line, show_line, events_line, pin_line, use_line, unpin_line, request_of};

use crate::command::Command;
use crate::pins::Pins;
use crate::value::range;
use crate::why::ScriptWhy;
use deck_reader::{Word, Words, node_of};
use std::alloc::Global;

/// `run`, `look` or `work`, alone.
#[tactic(auto, unfolding(crate::specs::Requests::lone_line))]
fn lone_line(command: Command, words: &mut Words<'_>) -> Result<Command, ScriptWhy>
    ensures { Says result (lone_line command words.old) }
{
    if words.len() != 0 {
        return Err(ScriptWhy::WrongWords);
    }
    Ok(command)
}

/// `show NODE` or `show NODE A B`.
#[tactic(auto, unfolding(crate::specs::Requests::show_line))]
fn show_line(alloc: Global, words: &mut Words<'_>) -> Result<Command, ScriptWhy>
    ensures { Says result (show_line words.old) }
{
    let name = words.next().ok_or(ScriptWhy::WrongWords)?;
    let Some(first) = words.next() else {
        let node = node_of(alloc, &name)?;
        return Ok(Command::Show { node, range: None });
    };
    let last = words.next().ok_or(ScriptWhy::WrongWords)?;
    if words.len() != 0 {
        return Err(ScriptWhy::WrongWords);
    }
    let ticks = range(alloc, &first, &last)?;
    let node = node_of(alloc, &name)?;
    Ok(Command::Show {
        node,
        range: Some(ticks),
    })
}

/// `events` or `events A B`.
#[tactic(auto, unfolding(crate::specs::Requests::events_line))]
fn events_line(alloc: Global, words: &mut Words<'_>) -> Result<Command, ScriptWhy>
    ensures { Says result (events_line words.old) }
{
    let Some(first) = words.next() else {
        return Ok(Command::Events { range: None });
    };
    let last = words.next().ok_or(ScriptWhy::WrongWords)?;
    if words.len() != 0 {
        return Err(ScriptWhy::WrongWords);
    }
    let ticks = range(alloc, &first, &last)?;
    Ok(Command::Events { range: Some(ticks) })
}

/// `pin W`.
#[tactic(auto, unfolding(crate::specs::Requests::pin_line))]
fn pin_line(alloc: Global, words: &mut Words<'_>) -> Result<Command, ScriptWhy>
    ensures { Says result (pin_line words.old) }
{
    let name = words.next().ok_or(ScriptWhy::WrongWords)?;
    if words.len() != 0 {
        return Err(ScriptWhy::WrongWords);
    }
    Ok(Command::Pin(name.to_name(alloc)?))
}

/// `use W`, of a name that is bound.
#[tactic(auto, unfolding(crate::specs::Requests::use_line))]
fn use_line(alloc: Global, pins: &Pins, words: &mut Words<'_>) -> Result<Command, ScriptWhy>
    ensures { Says result (use_line pins.now words.old) }
{
    let word = words.next().ok_or(ScriptWhy::WrongWords)?;
    if words.len() != 0 {
        return Err(ScriptWhy::WrongWords);
    }
    let name = word.to_name(alloc)?;
    if pins.is_bound(&name) {
        return Ok(Command::UsePin(name));
    }
    Err(ScriptWhy::NoSuchPin(name))
}

/// `unpin W`, of a name that is bound.
#[tactic(auto, unfolding(crate::specs::Requests::unpin_line))]
fn unpin_line(alloc: Global, pins: &Pins, words: &mut Words<'_>) -> Result<Command, ScriptWhy>
    ensures { Says result (unpin_line pins.now words.old) }
{
    let word = words.next().ok_or(ScriptWhy::WrongWords)?;
    if words.len() != 0 {
        return Err(ScriptWhy::WrongWords);
    }
    let name = word.to_name(alloc)?;
    if pins.is_bound(&name) {
        return Ok(Command::Unpin(name));
    }
    Err(ScriptWhy::NoSuchPin(name))
}

/// The command of a line that is no edit, by its first word and those behind it.
#[tactic(auto, unfolding(crate::specs::Requests::request_of))]
pub fn request_of(
    alloc: Global,
    pins: &Pins,
    first: &Word<'_>,
    words: &mut Words<'_>,
) -> Result<Command, ScriptWhy>
    ensures { Says result (request_of pins.now first.now words.old) }
{
    if first.is("run") {
        return lone_line(Command::Run, words);
    }
    if first.is("look") {
        return lone_line(Command::Look, words);
    }
    if first.is("show") {
        return show_line(alloc, words);
    }
    if first.is("events") {
        return events_line(alloc, words);
    }
    if first.is("pin") {
        return pin_line(alloc, words);
    }
    if first.is("use") {
        return use_line(alloc, pins, words);
    }
    if first.is("unpin") {
        return unpin_line(alloc, pins, words);
    }
    if first.is("work") {
        return lone_line(Command::Work, words);
    }
    Err(ScriptWhy::UnknownCommand(first.to_name(alloc)?))
}
