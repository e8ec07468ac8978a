//! The lines of a script that are edits, by their words behind the first.

ghost use Rattle.std.specs.Prelude.{drop};
ghost use Rattle.wave_script.specs.Answers.{Says};
ghost use Rattle.wave_script.specs.Edits.{set_line, wave_line, model_line, ic_line, add_line, del_line};

use crate::command::Command;
use crate::value::value;
use crate::why::{ScriptWhy, card_why};
use deck_cards::Edit;
use deck_lexer::CardLine;
use deck_reader::{Words, node_of, read_element, read_wave};
use spice_num::Unit;
use std::alloc::Global;

/// `set NAME VALUE`: a resistance where the name begins with `r`, else a capacitance.
#[tactic(auto, unfolding(crate::specs::Edits::set_line))]
pub fn set_line(alloc: Global, words: &mut Words<'_>) -> Result<Command, ScriptWhy>
    ensures { Says result (set_line words.old) }
{
    let name = words.next().ok_or(ScriptWhy::WrongWords)?;
    let word = words.next().ok_or(ScriptWhy::WrongWords)?;
    if words.len() != 0 {
        return Err(ScriptWhy::WrongWords);
    }
    if name.begins_with(b'r') {
        let ohms = value(alloc, &word, Unit::Ohm)?;
        let name = name.to_name(alloc)?;
        return Ok(Command::Edit(Edit::SetR { name, ohms }));
    }
    let farads = value(alloc, &word, Unit::Farad)?;
    let name = name.to_name(alloc)?;
    Ok(Command::Edit(Edit::SetC { name, farads }))
}

/// `wave NAME`, and the words of the card of a source behind its nodes.
#[tactic(auto, using(crate::proofs::CardSays::wave_ok, crate::proofs::CardSays::wave_err), unfolding(crate::specs::Edits::wave_line))]
pub fn wave_line(alloc: Global, line: &CardLine) -> Result<Command, ScriptWhy>
    ensures { Says result (wave_line (drop 1 line.now.words)) }
{
    let mut words = Words::of(line, 1);
    let name = words.next().ok_or(ScriptWhy::WrongWords)?;
    if words.len() == 0 {
        return Err(ScriptWhy::WrongWords);
    }
    match read_wave(alloc, line, 2) {
        Err(why) => Err(card_why(why)),
        Ok(wave) => {
            let name = name.to_name(alloc)?;
            Ok(Command::Edit(Edit::SetWave { name, wave }))
        }
    }
}

/// `model NAME PART`.
#[tactic(auto, unfolding(crate::specs::Edits::model_line))]
pub fn model_line(alloc: Global, words: &mut Words<'_>) -> Result<Command, ScriptWhy>
    ensures { Says result (model_line words.old) }
{
    let name = words.next().ok_or(ScriptWhy::WrongWords)?;
    let part = words.next().ok_or(ScriptWhy::WrongWords)?;
    if words.len() != 0 {
        return Err(ScriptWhy::WrongWords);
    }
    Ok(Command::Edit(Edit::SetModel {
        name: name.to_name(alloc)?,
        part: part.to_name(alloc)?,
    }))
}

/// `ic NODE VOLTS`.
#[tactic(auto, unfolding(crate::specs::Edits::ic_line))]
pub fn ic_line(alloc: Global, words: &mut Words<'_>) -> Result<Command, ScriptWhy>
    ensures { Says result (ic_line words.old) }
{
    let node = words.next().ok_or(ScriptWhy::WrongWords)?;
    let level = words.next().ok_or(ScriptWhy::WrongWords)?;
    if words.len() != 0 {
        return Err(ScriptWhy::WrongWords);
    }
    let volts = value(alloc, &level, Unit::Volt)?;
    Ok(Command::Edit(Edit::SetIc {
        node: node_of(alloc, &node)?,
        volts,
    }))
}

/// `add`, and the words of the card of an element.
#[tactic(auto, using(crate::proofs::CardSays::add_ok, crate::proofs::CardSays::add_err), unfolding(crate::specs::Edits::add_line))]
pub fn add_line(alloc: Global, line: &CardLine) -> Result<Command, ScriptWhy>
    ensures { Says result (add_line (drop 1 line.now.words)) }
{
    if Words::of(line, 1).len() == 0 {
        return Err(ScriptWhy::WrongWords);
    }
    match read_element(alloc, line, 1) {
        Err(why) => Err(card_why(why)),
        Ok(element) => Ok(Command::Edit(Edit::Add(element))),
    }
}

/// `del NAME`.
#[tactic(auto, unfolding(crate::specs::Edits::del_line))]
pub fn del_line(alloc: Global, words: &mut Words<'_>) -> Result<Command, ScriptWhy>
    ensures { Says result (del_line words.old) }
{
    let name = words.next().ok_or(ScriptWhy::WrongWords)?;
    if words.len() != 0 {
        return Err(ScriptWhy::WrongWords);
    }
    Ok(Command::Edit(Edit::Remove(name.to_name(alloc)?)))
}
