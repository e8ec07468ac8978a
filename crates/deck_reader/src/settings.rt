//! The keys of a `.model` card, and what they set.

ghost use Rattle.std.specs.Prelude.{◌≡◌};
ghost use Rattle.deck_reader.specs.Numbers.{Gives};
ghost use Rattle.deck_reader.specs.Models.{key_of, unit_of};
ghost use Rattle.deck_reader.specs.Settings.{unset, set, with_setting, with_pairs, limit_of};

use crate::number::number;
use crate::why::DeckWhy;
use crate::words::{Word, Words};
use deck_cards::{Which, limits};
use spice_num::Unit;
use std::alloc::Global;

/// A key that has an effect.
#[derive(Clone, Copy)]
pub enum Key {
    /// The threshold voltage.
    Vto,
    /// The gain.
    Kp,
    /// The level, which has to be 1.
    Level,
}

/// What the keys of a model have set so far, of equal keys the last.
#[derive(Clone, Copy)]
pub struct Settings {
    /// The threshold voltage, in microvolts.
    pub vto: i64,
    /// The gain, in picoamperes per square volt.
    pub kp: i64,
    pub level: i64,
    /// Whether the gain stands before the threshold voltage on the card.
    kp_first: bool,
}

/// The key that a word is; `None` for any other word, which is skipped with its value.
#[tactic(auto, unfolding(crate::specs::Models::key_of))]
fn key_of(word: &Word<'_>) -> Option<Key>
    ensures { result ≡ key_of word.now }
{
    if word.is("vto") || word.is("vt0") {
        return Some(Key::Vto);
    }
    if word.is("kp") {
        return Some(Key::Kp);
    }
    if word.is("level") {
        return Some(Key::Level);
    }
    None
}

impl Key {
    /// The unit of its value. A level is rounded to a whole number.
    fn unit(self) -> Unit
        ensures { result ≡ unit_of self }
    {
        match self {
            Key::Vto => Unit::Volt,
            Key::Kp => Unit::Gain,
            Key::Level => Unit::Plain,
        }
    }
}

impl Settings {
    /// Nothing is set: a threshold voltage of 0, a gain of 20 µA per square volt, level 1.
    fn unset() -> Settings
        ensures { result ≡ unset }
    {
        Settings {
            vto: 0,
            kp: 20_000_000,
            level: 1,
            kp_first: false,
        }
    }

    /// These and one more.
    fn set(&self, key: Key, value: i64) -> Settings
        ensures { result ≡ set self.now (key, value) }
    {
        match key {
            Key::Vto => Settings {
                vto: value,
                kp_first: true,
                ..*self
            },
            Key::Kp => Settings {
                kp: value,
                kp_first: false,
                ..*self
            },
            Key::Level => Settings {
                level: value,
                ..*self
            },
        }
    }

    /// These and that of one more key.
    #[tactic(auto, unfolding(crate::specs::Settings::with_setting))]
    fn with(&self, alloc: Global, word: &Word<'_>, value: &Word<'_>) -> Result<Settings, DeckWhy>
        ensures { Gives result (with_setting self.now word.now value.now) }
    {
        match key_of(word) {
            Some(key) => Ok(self.set(key, number(alloc, value, key.unit())?)),
            None => Ok(*self),
        }
    }

    /// What pairs of a key and its value set.
    #[tactic(auto, unfolding(crate::specs::Settings::with_pairs, crate::specs::Models::settings_of))]
    pub fn of(alloc: Global, pairs: &mut Words<'_>) -> Result<Settings, DeckWhy>
        ensures { Gives result (with_pairs unset pairs.old) }
    {
        let mut settings = Settings::unset();
        while let Some(word) = pairs.next() {
            let Some(value) = pairs.next() else {
                break;
            };
            settings = settings.with(alloc, &word, &value)?;
        }
        Ok(settings)
    }

    /// What the first value on the card that is outside its limit is of.
    pub fn limit(&self) -> Option<Which>
        ensures { result ≡ limit_of self.now }
    {
        let volts = if limits::is_small_vto(self.vto) {
            None
        } else {
            Some(Which::Volts)
        };
        let gain = if limits::is_some_gain(self.kp) {
            None
        } else {
            Some(Which::Gain)
        };
        if self.kp_first {
            gain.or(volts)
        } else {
            volts.or(gain)
        }
    }
}
