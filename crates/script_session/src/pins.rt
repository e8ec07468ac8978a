ghost use Rattle.std.specs.Prelude.{◌≡◌, [], Some, None, option_map, OnErr, OnOk};
ghost use Rattle.std.specs.Arc.{arc_value};
ghost use Rattle.deck_cards.specs.Settled.{put};
ghost use Rattle.script_session.specs.Held.{bound_to};

use deck_cards::Name;
use indexmap::IndexMap;
use std::alloc::{AllocError, Global};
use std::marker::Model;
use std::sync::Arc;
use version_book::Version;

/// The names that lines have pinned or unpinned so far, each with the version that it is bound to now, if any.
#[derive(Drop)]
pub(crate) struct Pins {
    names: IndexMap<Name, Option<Arc<Version>>>,
}

impl Model for Pins {
    ghost use Rattle.std.specs.Prelude.{map};
    ghost use Rattle.std.specs.Option.{option_map};
    ghost use Rattle.std.specs.Arc.{arc_value};
    ghost use Rattle.script_session.specs.Held.{Bindings};

    ghost Value = { Bindings };

    ghost view = { λ p. map (λ e. (e.0, option_map arc_value e.1)) p.names.entries };
}

impl Pins {
    /// No name.
    pub(crate) fn new(alloc: Global) -> Pins
        ensures { result ≡ [] }
    {
        Pins {
            names: IndexMap::new(alloc),
        }
    }

    /// Binds a name to a version.
    pub(crate) fn bind(&mut self, name: &Name, version: &Arc<Version>) -> Result<(), AllocError>
        ensures bound { OnOk result (self.new
            ≡ put self.old (name.now, Some (arc_value version.now))) }
        ensures kept { OnErr result (self.new ≡ self.old) }
    {
        let own = Arc::try_clone(version)?;
        self.names.insert(name.copy()?, Some(own))?;
        Ok(())
    }

    /// Binds a name no more.
    pub(crate) fn free(&mut self, name: &Name) -> Result<(), AllocError>
        ensures bound { OnOk result (self.new ≡ put self.old (name.now, None)) }
        ensures kept { OnErr result (self.new ≡ self.old) }
    {
        self.names.insert(name.copy()?, None)?;
        Ok(())
    }

    /// The version that a name is bound to.
    pub(crate) fn get(&self, name: &Name) -> Option<&Arc<Version>>
        ensures { option_map (λ v. arc_value v.now) result ≡ bound_to self.now name.now }
    {
        match self.names.get(name) {
            None => None,
            Some(bound) => bound.as_ref(),
        }
    }
}
