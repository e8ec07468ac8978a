//! The `.model` card: the channel, and what its keys set.

ghost use Rattle.std.specs.Prelude.{◌≡◌};
ghost use Rattle.deck_cards.specs.Part.{part_of};
ghost use Rattle.deck_reader.specs.Numbers.{Gives};
ghost use Rattle.deck_reader.specs.Models.{channel_of, model_of};
ghost use Rattle.deck_reader.specs.Settings.{level_one};

use crate::settings::Settings;
use crate::source::are_pairs;
use crate::why::DeckWhy;
use crate::words::{Word, Words};
use deck_cards::{Part, Which};
use semantics::Channel;
use std::alloc::Global;
use std::marker::Model;

/// A level 1 model, as a card has it: a value of it may be outside its limit.
#[derive(Drop)]
pub struct LevelOne {
    channel: Channel,
    settings: Settings,
}

impl Model for LevelOne {
    ghost use Rattle.deck_reader.specs.Models.{ModelSaid};
    ghost use Rattle.deck_reader.specs.Settings.{said};

    ghost Value = { ModelSaid };

    ghost view = { λ m. said m.channel m.settings };
}

impl LevelOne {
    /// The model of this channel and these settings.
    fn of(channel: Channel, settings: Settings) -> Result<LevelOne, DeckWhy>
        ensures { Gives result (level_one channel settings) }
    {
        if settings.level != 1 {
            return Err(DeckWhy::BadLevel);
        }
        Ok(LevelOne { channel, settings })
    }

    /// What the first value on the card that is outside its limit is of.
    pub fn limit(&self) -> Option<Which>
        ensures { result ≡ self.now.limit }
    {
        self.settings.limit()
    }

    /// The part of this model.
    pub fn part(&self) -> Part
        ensures { part_of result ≡ self.now.part }
    {
        Part::Level {
            channel: self.channel,
            vto: self.settings.vto,
            kp: self.settings.kp,
        }
    }
}

/// The channel that a word names.
#[tactic(auto, unfolding(crate::specs::Models::channel_of))]
fn channel_of(word: &Word<'_>) -> Option<Channel>
    ensures { result ≡ channel_of word.now }
{
    if word.is("nmos") {
        return Some(Channel::N);
    }
    if word.is("pmos") {
        return Some(Channel::P);
    }
    None
}

/// The model that the words behind its name say.
#[tactic(auto, using(crate::proofs::ModelLemmas::model_kept, crate::proofs::ModelLemmas::model_bad), unfolding(crate::specs::Models::model_of))]
pub fn model_of(alloc: Global, words: &mut Words<'_>) -> Result<LevelOne, DeckWhy>
    ensures { Gives result (model_of words.old) }
{
    let word = words.next().ok_or(DeckWhy::WrongWords)?;
    let Some(channel) = channel_of(&word) else {
        return Err(DeckWhy::WrongWords);
    };
    if !are_pairs(&mut words.copy()) {
        return Err(DeckWhy::WrongWords);
    }
    LevelOne::of(channel, Settings::of(alloc, words)?)
}
