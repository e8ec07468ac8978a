//! What is to be done, by the words and the bytes of the files.

ghost use Rattle.std.specs.Prelude.{◌≡◌, ◌≤◌, ℕ, List, map, length, string_bytes, Contains, IfSome};
ghost use Rattle.outside.specs.Content.{SameBytes, SameElsewhere};
ghost use Rattle.outside.specs.declared.reading.TheConstants.{READ_LIMIT};
ghost use Rattle.wave_shell.specs.Endings.{IsOfDeck, IsOfScript, Judges, JudgesFile, JudgesWords, Refuses};
ghost use Rattle.wave_shell.specs.Program.{judged_deck, judged_script};
ghost use Rattle.wave_shell.specs.Words.{deck_name, script_name};

use crate::refusal::{Refusal, Stop};
use crate::words::files;
use deck_cards::Deck;
use deck_reader::{DeckWhy, read};
use outside::{ReadRefusal, Shelf, read_whole};
use std::alloc::Global;
use wave_script::{Script, ScriptWhy, read_script};

/// A deck, and the script that is to be played on it, where there is one.
#[derive(Drop)]
pub struct Job {
    /// The deck.
    pub deck: Deck,
    /// The script.
    pub script: Option<Script>,
}

/// The deck in bytes that are not too many.
fn deck_in(alloc: Global, bytes: &[u8]) -> Result<Deck, Stop>
    requires { length bytes.now ≤ READ_LIMIT }
    ensures judged { Judges (judged_deck bytes.now) result }
    ensures kind { Refuses IsOfDeck result }
{
    match read(alloc, bytes) {
        Ok(deck) => Ok(deck),
        Err(refusal) => match refusal.why {
            DeckWhy::Memory => Err(Stop::Memory),
            _ => Err(Stop::Refused(Refusal::Deck(refusal))),
        },
    }
}

/// The script in bytes that are not too many.
fn script_in(alloc: Global, bytes: &[u8]) -> Result<Script, Stop>
    requires { length bytes.now ≤ READ_LIMIT }
    ensures judged { Judges (judged_script bytes.now) result }
    ensures kind { Refuses IsOfScript result }
{
    match read_script(alloc, bytes) {
        Ok(script) => Ok(script),
        Err(refusal) => match refusal.why {
            ScriptWhy::Memory => Err(Stop::Memory),
            _ => Err(Stop::Refused(Refusal::Script(refusal))),
        },
    }
}

/// Reads a deck to its end, and judges it.
fn read_deck<S: Shelf>(alloc: Global, shelf: &mut S, name: &str) -> Result<Deck, Stop>
    requires { Contains (S.names shelf.old) name.now }
    ensures judged { JudgesFile judged_deck (S.bytes shelf.old name.now)
        (S.faults shelf.old name.now) (S.faults shelf.new name.now) result }
    ensures kind { Refuses IsOfDeck result }

    ensures names { S.names shelf.new ≡ S.names shelf.old }
    ensures bytes { SameBytes (S.bytes shelf.old) (S.bytes shelf.new) }
    ensures later { (other : List ℕ) → S.faults shelf.old other ≤ S.faults shelf.new other }
{
    match read_whole(alloc, shelf, name) {
        Ok(bytes) => deck_in(alloc, &bytes),
        Err(ReadRefusal::TooLong) => Err(Stop::Refused(Refusal::DeckTooLong)),
        Err(ReadRefusal::Failed) => Err(Stop::Read),
        Err(ReadRefusal::Memory) => Err(Stop::Memory),
    }
}

/// Reads a script to its end, and judges it.
fn read_lines<S: Shelf>(alloc: Global, shelf: &mut S, name: &str) -> Result<Script, Stop>
    requires { Contains (S.names shelf.old) name.now }
    ensures judged { JudgesFile judged_script (S.bytes shelf.old name.now)
        (S.faults shelf.old name.now) (S.faults shelf.new name.now) result }
    ensures kind { Refuses IsOfScript result }

    ensures names { S.names shelf.new ≡ S.names shelf.old }
    ensures bytes { SameBytes (S.bytes shelf.old) (S.bytes shelf.new) }
    ensures later { (other : List ℕ) → S.faults shelf.old other ≤ S.faults shelf.new other }
{
    match read_whole(alloc, shelf, name) {
        Ok(bytes) => script_in(alloc, &bytes),
        Err(ReadRefusal::TooLong) => Err(Stop::Refused(Refusal::ScriptTooLong)),
        Err(ReadRefusal::Failed) => Err(Stop::Read),
        Err(ReadRefusal::Memory) => Err(Stop::Memory),
    }
}

/// The job that the words give, or why they give none.
///
/// The deck is read to its end and judged, and then the script, where one is named.
pub fn judge<S: Shelf>(alloc: Global, words: &[String], shelf: &mut S) -> Result<Job, Stop>
    requires deck { IfSome (deck_name (map string_bytes words.now)) (λ name.
        Contains (S.names shelf.old) name) }
    requires script { IfSome (script_name (map string_bytes words.now)) (λ name.
        Contains (S.names shelf.old) name) }
    ensures judged { JudgesWords (S.bytes shelf.old) (S.faults shelf.old) (S.faults shelf.new)
        (map string_bytes words.now) result }

    ensures names { S.names shelf.new ≡ S.names shelf.old }
    ensures bytes { SameBytes (S.bytes shelf.old) (S.bytes shelf.new) }
    ensures later { (other : List ℕ) → S.faults shelf.old other ≤ S.faults shelf.new other }
{
    let Some(files) = files(words) else {
        return Err(Stop::Refused(Refusal::Words));
    };
    let deck = read_deck(alloc, shelf, files.deck)?;
    let Some(name) = files.script else {
        return Ok(Job { deck, script: None });
    };
    let script = read_lines(alloc, shelf, name)?;
    Ok(Job {
        deck,
        script: Some(script),
    })
}
