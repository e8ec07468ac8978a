//! A list of numbers, to which each turn adds the number of its pass.
ghost use Rattle.std.specs.Prelude.{◌≡◌, ◌⊎◌, ◌++◌, [], ◌∷◌, OnOk, OnErr};

use crate::turns::Turns;
use std::alloc::{AllocError, Global};

pub(crate) struct Numbers {
    list: Vec<u64>,
    name: u64,
}

impl Numbers {
    pub(crate) fn new(alloc: Global, name: u64) -> Numbers
        ensures { (result.list.items ≡ []) × (result.name ≡ name) }
    {
        Numbers {
            list: Vec::new(alloc),
            name,
        }
    }

    pub(crate) fn add(&mut self, number: u64) -> Result<(), AllocError>
        ensures name { self.new.name ≡ self.old.name }
        ensures either { (self.new.list.items ≡ self.old.list.items) ⊎ (self.new.list.items ≡ self.old.list.items ++ number ∷ []) }
    {
        self.list.push(number).map_err(|_| AllocError)
    }

    pub(crate) fn into_list(self) -> Vec<u64>
        ensures { result ≡ self.list }
    {
        let Numbers { list, name: _ } = self;
        list
    }
}

impl Turns for Numbers {
    type Entry = u64;

    type Label = u64;

    ghost turns = { λ n. n.list.items };

    ghost maker = { λ e. e };

    ghost label = { λ n. n.name };

    fn count(&self) -> u64 {
        self.list.len() as u64
    }
}
