ghost use Rattle.std.specs.Prelude.{◌≡◌, ◌+◌, ◌<◌, ◌≤◌, ◌↔◌, IsTrue, Some, None, OnOk, OnErr, IsSome, IfSome, IfNone};
ghost use Rattle.std.specs.FinMap as map;
ghost use Rattle.event_order.specs.Parts.{IsWithin, Pops};
ghost use Rattle.event_order.specs.Ticks.{IsFirst};

use crate::buckets::Buckets;
use crate::spot::{Spot, leave, place_of, spot_of};
use crate::table::make_place;
use std::alloc::{AllocError, Global};
use std::marker::Model;

/// Devices that wait, in lists by the last byte of their ticks. A contract sees it as the map from these devices to
/// their ticks.
#[derive(Drop)]
pub(crate) struct Near {
    // Where each device stands, by its number.
    spots: Vec<Option<Spot>>,
    // The devices by place, which is the last byte of their ticks.
    buckets: Buckets,
}

impl Model for Near {
    ghost use Rattle.event_order.specs.Ticks.{Ticks};
    ghost use Rattle.std.specs.Coded.{coded_ℕ};
    ghost use Rattle.std.specs.FinMap as map;

    ghost Value = { Ticks };

    ghost coded = { map.code coded_ℕ coded_ℕ };

    ghost use Rattle.event_order.specs.Tables.{ticks_of};
    ghost use Rattle.event_order.specs.Spots.{ticks_in, IsNear};

    ghost view = { λ n. ticks_of (ticks_in n.spots.items) };

    ghost invariant = { λ n. IsNear n.spots.items n.buckets };
}

impl Near {
    pub(crate) fn new(alloc: Global) -> Near
        ensures { result ≡ map.empty }
    {
        Near {
            spots: Vec::new(alloc),
            buckets: Buckets::new(alloc),
        }
    }

    /// The tick that a device waits for.
    pub(crate) fn tick(&self, device: u32) -> Option<u64>
        ensures { result ≡ map.get self.now device }
    {
        match self.spots.get(device as usize) {
            Some(Some(spot)) => Some(spot.tick),
            Some(None) => None,
            None => None,
        }
    }

    /// Lets a device wait for a tick.
    pub(crate) fn put(&mut self, tick: u64, device: u32) -> Result<(), AllocError>
        requires absent { map.get self.old device ≡ None }
        ensures ok { OnOk result (self.new ≡ map.insert self.old device tick) }
        ensures err { OnErr result (self.new ≡ self.old) }
    {
        let place = device as usize;
        make_place(&mut self.spots, place)?;
        let index = self.buckets.push(place_of(tick), device)?;
        self.spots[place] = Some(Spot { tick, index });
        Ok(())
    }

    /// Lets a device that waits wait for this tick instead.
    pub(crate) fn move_to(&mut self, device: u32, tick: u64) -> Result<(), AllocError>
        requires waits { IsSome (map.get self.old device) }
        ensures ok { OnOk result (self.new ≡ map.insert self.old device tick) }
        ensures err { OnErr result (self.new ≡ self.old) }
    {
        let place = device as usize;
        let spot = spot_of(&self.spots, device);
        if place_of(tick) == place_of(spot.tick) {
            let index = spot.index;
            self.spots[place] = Some(Spot { tick, index });
            return Ok(());
        }
        let index = self.buckets.push(place_of(tick), device)?;
        leave(&mut self.spots, &mut self.buckets, spot);
        self.spots[place] = Some(Spot { tick, index });
        Ok(())
    }

    /// Takes out a device that waits.
    pub(crate) fn remove(&mut self, device: u32)
        requires waits { IsSome (map.get self.old device) }
        ensures { self.new ≡ map.remove self.old device }
    {
        let spot = spot_of(&self.spots, device);
        leave(&mut self.spots, &mut self.buckets, spot);
        self.spots[device as usize] = None;
    }

    /// The least tick that a device waits for, where all are within 256 ticks from this one on; None where no device
    /// waits.
    pub(crate) fn first(&self, from: u64) -> Option<u64>
        requires within { IsWithin from self.now }
        ensures none { IfNone result (self.now ≡ map.empty) }
        ensures some { IfSome result (IsFirst self.now) }
    {
        match self.buckets.ahead(place_of(from)) {
            Some(ahead) => Some(from + ahead as u64),
            None => None,
        }
    }

    /// Takes out a device that waits for this tick, where all are within 256 ticks from the first one on; None where
    /// none does.
    pub(crate) fn pop(&mut self, from: u64, tick: u64) -> Option<u32>
        requires within { IsWithin from self.old }
        ensures { Pops self.old self.new tick result }
    {
        if !is_near(from, tick) {
            return None;
        }
        let device = self.buckets.pop(place_of(tick))?;
        self.spots[device as usize] = None;
        Some(device)
    }
}

/// Whether a tick is one of 256 from this one on.
pub(crate) fn is_near(from: u64, tick: u64) -> bool
    ensures { IsTrue result ↔ ((from ≤ tick) × (tick < from + 256)) }
{
    from <= tick && tick - from < 256
}
