ghost use Rattle.std.specs.Prelude.{◌≡◌};
ghost use Rattle.deck_reader.specs.Numbers.{Gives};
ghost use Rattle.deck_reader.specs.Elements.{is_length, is_width, is_key, is_skipped, foreign_key, default_size, with_key, with_keys, device};

use crate::number::number;
use crate::source::are_pairs;
use crate::why::DeckWhy;
use crate::words::{Word, Words, node_of};
use semantics::Element;
use spice_num::Unit;
use std::alloc::Global;

/// The length and the width of a channel, in picometres.
#[derive(Clone, Copy)]
pub struct Size {
    pub length: i64,
    pub width: i64,
}

/// Whether this is a key of a device.
fn is_key(word: &Word<'_>) -> bool
    ensures { result ≡ is_key word.now }
{
    word.is("l") || word.is("w") || is_skipped(word)
}

/// Whether this is a key that is skipped with its value: an area, a perimeter or a count of squares of
/// drain or source.
fn is_skipped(word: &Word<'_>) -> bool
    ensures { result ≡ is_skipped word.now }
{
    word.is("ad")
        || word.is("as")
        || word.is("pd")
        || word.is("ps")
        || word.is("nrd")
        || word.is("nrs")
}

/// The first key that is none of a device.
#[tactic(auto, unfolding(crate::specs::Elements::foreign_key))]
fn foreign_key<'a>(keys: &mut Words<'a>) -> Option<Word<'a>>
    ensures { result ≡ foreign_key keys.old }
{
    while let Some(key) = keys.next() {
        if !is_key(&key) {
            return Some(key);
        }
        keys.next();
    }
    None
}

/// The size after one more key.
#[tactic(auto, unfolding(crate::specs::Elements::with_key))]
fn with_key(alloc: Global, size: &Size, key: &Word<'_>, value: &Word<'_>) -> Result<Size, DeckWhy>
    ensures { Gives result (with_key size.now key.now value.now) }
{
    if key.is("l") {
        let length = number(alloc, value, Unit::Length)?;
        return Ok(Size { length, ..*size });
    }
    if key.is("w") {
        let width = number(alloc, value, Unit::Length)?;
        return Ok(Size { width, ..*size });
    }
    Ok(*size)
}

/// The size after these keys, where the last of two equal ones holds.
#[tactic(auto, unfolding(crate::specs::Elements::with_keys))]
fn size_of(alloc: Global, keys: &mut Words<'_>) -> Result<Size, DeckWhy>
    ensures { Gives result (with_keys default_size keys.old) }
{
    let mut size = Size {
        length: 100_000_000,
        width: 100_000_000,
    };
    while let Some(key) = keys.next() {
        let Some(value) = keys.next() else {
            break;
        };
        size = with_key(alloc, &size, &key, &value)?;
    }
    Ok(size)
}

/// The card `mNAME DRAIN GATE SOURCE BULK PART`, and pairs of a key and its value.
#[tactic(auto, unfolding(crate::specs::Elements::device))]
pub fn device(alloc: Global, words: &mut Words<'_>) -> Result<Element, DeckWhy>
    ensures { Gives result (device words.old) }
{
    let name = words.next().ok_or(DeckWhy::WrongWords)?;
    let drain = words.next().ok_or(DeckWhy::WrongWords)?;
    let gate = words.next().ok_or(DeckWhy::WrongWords)?;
    let source = words.next().ok_or(DeckWhy::WrongWords)?;
    let bulk = words.next().ok_or(DeckWhy::WrongWords)?;
    let part = words.next().ok_or(DeckWhy::WrongWords)?;
    if let Some(key) = foreign_key(&mut words.copy()) {
        return Err(DeckWhy::Unsupported(key.to_name(alloc)?));
    }
    if !are_pairs(&mut words.copy()) {
        return Err(DeckWhy::WrongWords);
    }
    let size = size_of(alloc, words)?;
    Ok(Element::Mos {
        name: name.to_name(alloc)?,
        drain: node_of(alloc, &drain)?,
        gate: node_of(alloc, &gate)?,
        source: node_of(alloc, &source)?,
        bulk: node_of(alloc, &bulk)?,
        part: part.to_name(alloc)?,
        length: size.length,
        width: size.width,
    })
}
