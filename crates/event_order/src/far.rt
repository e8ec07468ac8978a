ghost use Rattle.std.specs.Prelude.{◌≡◌, ℕ, false, true, Some, None, OnOk, OnErr, IsSome, IfSome, IfNone};
ghost use Rattle.std.specs.FinMap as map;
ghost use Rattle.event_order.specs.Parts.{Pops};
ghost use Rattle.event_order.specs.Ticks.{IsFirst, is_due};

use crate::table::make_place;
use std::alloc::{AllocError, Global};
use std::collections::BTreeSet;
use std::marker::Model;

/// Devices that wait, in the order of their ticks. A contract sees it as the map from these devices to their ticks.
#[derive(Drop)]
pub(crate) struct Far {
    // The tick of each device, by its number.
    ticks: Vec<Option<u64>>,
    // The same as pairs, the least tick first.
    order: BTreeSet<(u64, u32)>,
}

impl Model for Far {
    ghost use Rattle.event_order.specs.Ticks.{Ticks};
    ghost use Rattle.std.specs.Coded.{coded_ℕ};
    ghost use Rattle.std.specs.FinMap as map;

    ghost Value = { Ticks };

    ghost coded = { map.code coded_ℕ coded_ℕ };

    ghost use Rattle.event_order.specs.Tables.{ticks_of, HasAll};

    ghost view = { λ q. ticks_of q.ticks.items };

    ghost invariant = { λ q. HasAll q.order q.ticks.items };
}

impl Far {
    pub(crate) fn new(alloc: Global) -> Far
        ensures { result ≡ map.empty }
    {
        Far {
            ticks: Vec::new(alloc),
            order: BTreeSet::new(alloc),
        }
    }

    /// The tick that a device waits for.
    pub(crate) fn tick(&self, device: u32) -> Option<u64>
        ensures { result ≡ map.get self.now device }
    {
        match self.ticks.get(device as usize) {
            Some(tick) => *tick,
            None => None,
        }
    }

    /// Lets a device wait for a tick.
    pub(crate) fn put(&mut self, tick: u64, device: u32) -> Result<(), AllocError>
        requires absent { map.get self.old device ≡ None }
        ensures ok { OnOk result (self.new ≡ map.insert self.old device tick) }
        ensures err { OnErr result (self.new ≡ self.old) }
    {
        let place = device as usize;
        make_place(&mut self.ticks, place)?;
        self.order.insert((tick, device))?;
        self.ticks[place] = Some(tick);
        Ok(())
    }

    /// Lets a device that waits wait for this tick instead.
    pub(crate) fn move_to(&mut self, device: u32, tick: u64) -> Result<(), AllocError>
        requires waits { IsSome (map.get self.old device) }
        ensures ok { OnOk result (self.new ≡ map.insert self.old device tick) }
        ensures err { OnErr result (self.new ≡ self.old) }
    {
        let before = self.tick(device).unwrap();
        if before != tick {
            self.order.insert((tick, device))?;
            self.order.remove(&(before, device));
            self.ticks[device as usize] = Some(tick);
        }
        Ok(())
    }

    /// Takes out a device that waits.
    pub(crate) fn remove(&mut self, device: u32)
        requires waits { IsSome (map.get self.old device) }
        ensures { self.new ≡ map.remove self.old device }
    {
        let tick = self.tick(device).unwrap();
        self.order.remove(&(tick, device));
        self.ticks[device as usize] = None;
    }

    /// The least tick that a device waits for; None where no device waits.
    pub(crate) fn first(&self) -> Option<u64>
        ensures none { IfNone result (self.now ≡ map.empty) }
        ensures some { IfSome result (IsFirst self.now) }
    {
        match self.order.first() {
            Some((tick, _)) => Some(*tick),
            None => None,
        }
    }

    /// Takes out a device that waits for this tick; None where none does.
    pub(crate) fn pop(&mut self, tick: u64) -> Option<u32>
        ensures { Pops self.old self.new tick result }
    {
        let device = self.due(tick)?;
        self.remove(device);
        Some(device)
    }

    // A device that waits for this tick.
    fn due(&self, tick: u64) -> Option<u32>
        ensures none { IfNone result ((device : ℕ) → is_due self.now tick device ≡ false) }
        ensures some { IfSome result (λ device. is_due self.now tick device ≡ true) }
    {
        match self.order.range((tick, 0)..).next() {
            Some((at, device)) if *at == tick => Some(*device),
            _ => None,
        }
    }
}
