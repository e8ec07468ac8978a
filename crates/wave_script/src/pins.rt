ghost use Rattle.std.specs.Prelude.{◌≡◌, OnOk};
ghost use Rattle.deck_cards.specs.Settled.{put};
ghost use Rattle.wave_script.specs.Pins.{no_pins, is_bound, bound_after};

use crate::command::Command;
use indexmap::IndexMap;
use semantics::Name;
use std::alloc::{AllocError, Global};
use std::marker::Model;

/// The names that lines have pinned or unpinned so far, each with whether it is bound now.
#[derive(Drop)]
pub struct Pins {
    names: IndexMap<Name, bool>,
}

impl Model for Pins {
    ghost use Rattle.std.specs.Prelude.{ℕ, List, Bool};

    ghost Value = { List (List ℕ × Bool) };

    ghost view = { λ p. p.names.entries };
}

/// Says of a name whether it is bound.
fn put(names: &mut IndexMap<Name, bool>, name: &Name, is_bound: bool) -> Result<(), AllocError>
    ensures { OnOk result (names.new.entries ≡ put names.old.entries (name.now, is_bound)) }
{
    names.insert(name.copy()?, is_bound)?;
    Ok(())
}

impl Pins {
    /// No name.
    pub fn new(alloc: Global) -> Pins
        ensures { result ≡ no_pins }
    {
        Pins {
            names: IndexMap::new(alloc),
        }
    }

    /// Whether a name is bound.
    pub fn is_bound(&self, name: &Name) -> bool
        ensures { result ≡ is_bound self.now name.now }
    {
        self.names.get(name).copied().unwrap_or(false)
    }

    /// What is bound after this command.
    #[tactic(auto, unfolding(crate::specs::Pins::bound_after))]
    pub fn note(&mut self, command: &Command) -> Result<(), AllocError>
        ensures { OnOk result (self.new ≡ bound_after self.old command.now) }
    {
        match command {
            Command::Pin(name) => put(&mut self.names, name, true),
            Command::Unpin(name) => put(&mut self.names, name, false),
            _ => Ok(()),
        }
    }
}
