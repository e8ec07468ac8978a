ghost use Rattle.std.specs.Prelude.{◌≡◌, ◌<◌, ◌++◌, ◌∷◌, [], Some, length, slice_get, OnOk};

use crate::command::Command;
use std::alloc::{AllocError, Global};
use std::marker::Model;

/// The commands of a script, each with the number of its line, in order. A contract sees it as their
/// list.
#[derive(Drop)]
pub struct Script {
    lines: Vec<(u32, Command)>,
}

impl Model for Script {
    ghost use Rattle.std.specs.Prelude.{ℕ, List};
    ghost use Rattle.wave_script.specs.declared.command.Command.{Command};

    ghost Value = { List (ℕ × Command) };

    ghost view = { λ s. s.lines.items };
}

impl Script {
    /// No command.
    pub(crate) fn new(alloc: Global) -> Script
        ensures { result ≡ [] }
    {
        Script {
            lines: Vec::new(alloc),
        }
    }

    /// Puts the command of a line last.
    pub(crate) fn push(&mut self, line: u32, command: Command) -> Result<(), AllocError>
        ensures { OnOk result (self.new ≡ self.old ++ (line, command) ∷ []) }
    {
        self.lines.push((line, command))?;
        Ok(())
    }

    /// How many commands there are.
    pub fn len(&self) -> usize
        ensures { result ≡ length self.now }
    {
        self.lines.len()
    }

    /// The command at a place and the number of its line, from 1 on. It asks that there is one.
    pub fn get(&self, place: usize) -> (u32, &Command)
        requires { place < length self.now }
        ensures { slice_get self.now place ≡ Some (result.0, result.1.now) }
    {
        let (line, command) = &self.lines[place];
        (*line, command)
    }
}
