ghost use Rattle.std.specs.Prelude.{◌≡◌, [], ◌++◌, Some, OnOk};
ghost use Rattle.semantics.specs.Event.{event_of};

use semantics::Event;
use std::alloc::{AllocError, Global};
use std::marker::Model;

/// The events of a run, by tick and then by place. A contract sees them as their list.
#[derive(Drop)]
pub struct Events {
    events: Vec<Event>,
}

impl Model for Events {
    ghost use Rattle.std.specs.Prelude.{List};
    ghost use Rattle.semantics.specs.declared.event.Event.{Event};

    ghost Value = { List Event };

    ghost view = { λ e. e.events.items };
}

impl Events {
    /// No events.
    pub(crate) fn new(alloc: Global) -> Events
        ensures { result ≡ [] }
    {
        Events {
            events: Vec::new(alloc),
        }
    }

    /// All of them.
    pub fn all(&self) -> &[Event]
        ensures { result.now ≡ self.now }
    {
        self.events.as_slice()
    }

    /// Puts last that the device at this place comes from its old cells into its new ones, where they differ.
    pub(crate) fn note(
        &mut self,
        tick: u64,
        place: u32,
        old: (u32, u32),
        new: (u32, u32),
    ) -> Result<(), AllocError>
        ensures { OnOk result (self.new ≡ self.old ++ event_of tick place (Some old) (Some new)) }
    {
        if old != new {
            self.events.push(Event {
                tick,
                place,
                old,
                new,
            })?;
        }
        Ok(())
    }
}
