ghost use Rattle.std.specs.Prelude.{◌≡◌, ◌+◌, ◌≤◌, length, Some, None, OnOk, OnErr, IsSome, IfSome, IfNone, vec_capacity, vec_len, ◌++◌, take, drop, IsPermutation, IsSorted};
ghost use Rattle.std.specs.Ordering.{nat_cmp};
ghost use Rattle.std.specs.FinMap as map;
ghost use Rattle.event_order.specs.Parts.{Pops};
ghost use Rattle.event_order.specs.Ticks.{IsFirst, due, without};

use crate::far::Far;
use crate::near::{Near, is_near};
use std::alloc::{AllocError, Global};
use std::marker::Model;

/// The devices that wait, each for one tick. A contract sees it as the map from these devices to their ticks.
///
/// Devices that wait for one of the 256 ticks from the last one taken on stand in lists by tick: among these a call
/// takes constant time. The others stand in an ordered set, and a call takes logarithmic time in their number. A table
/// by device is as long as the greatest number that was put, so devices are best numbered from 0.
#[derive(Drop)]
pub struct Queue {
    // The first of the 256 ticks that are near.
    base: u64,
    // Devices that wait for near ticks, and for no others.
    near: Near,
    // The other devices; some of them may wait for ticks that were not near when they came.
    far: Far,
}

impl Model for Queue {
    ghost use Rattle.event_order.specs.Ticks.{Ticks};
    ghost use Rattle.std.specs.Coded.{coded_ℕ};
    ghost use Rattle.std.specs.FinMap as map;

    ghost Value = { Ticks };

    ghost coded = { map.code coded_ℕ coded_ℕ };

    ghost use Rattle.event_order.specs.Parts.{joined, IsSplit};

    ghost view = { λ q. joined q.near q.far };

    ghost invariant = { λ q. IsSplit q.base q.near q.far };
}

impl Queue {
    /// A queue in which no device waits.
    pub fn new(alloc: Global) -> Queue
        ensures { result ≡ map.empty }
    {
        Queue {
            base: 0,
            near: Near::new(alloc),
            far: Far::new(alloc),
        }
    }

    /// The tick that a device waits for; None where it waits for none.
    pub fn tick(&self, device: u32) -> Option<u64>
        ensures { result ≡ map.get self.now device }
    {
        match self.near.tick(device) {
            Some(tick) => Some(tick),
            None => self.far.tick(device),
        }
    }

    /// Lets a device wait for a tick. It must not wait yet. After an error the queue is as it was.
    pub fn put(&mut self, tick: u64, device: u32) -> Result<(), AllocError>
        requires absent { map.get self.old device ≡ None }
        ensures ok { OnOk result (self.new ≡ map.insert self.old device tick) }
        ensures err { OnErr result (self.new ≡ self.old) }
    {
        if is_near(self.base, tick) {
            self.near.put(tick, device)
        } else {
            self.far.put(tick, device)
        }
    }

    /// Lets a device that waits wait for this tick instead. After an error the queue is as it was.
    pub fn move_to(&mut self, device: u32, tick: u64) -> Result<(), AllocError>
        requires waits { IsSome (map.get self.old device) }
        ensures ok { OnOk result (self.new ≡ map.insert self.old device tick) }
        ensures err { OnErr result (self.new ≡ self.old) }
    {
        match (self.near.tick(device), is_near(self.base, tick)) {
            (Some(_), true) => self.near.move_to(device, tick),
            (Some(_), false) => {
                self.far.put(tick, device)?;
                self.near.remove(device);
                Ok(())
            }
            (None, true) => {
                self.near.put(tick, device)?;
                self.far.remove(device);
                Ok(())
            }
            (None, false) => self.far.move_to(device, tick),
        }
    }

    /// Takes out a device that waits.
    pub fn remove(&mut self, device: u32)
        requires waits { IsSome (map.get self.old device) }
        ensures { self.new ≡ map.remove self.old device }
    {
        match self.near.tick(device) {
            Some(_) => self.near.remove(device),
            None => self.far.remove(device),
        }
    }

    /// The least tick that a device waits for; None where no device waits.
    pub fn first(&self) -> Option<u64>
        ensures none { IfNone result (self.now ≡ map.empty) }
        ensures some { IfSome result (IsFirst self.now) }
    {
        match (self.near.first(self.base), self.far.first()) {
            (Some(near), Some(far)) => Some(near.min(far)),
            (Some(near), None) => Some(near),
            (None, Some(far)) => Some(far),
            (None, None) => None,
        }
    }

    /// Appends the devices that wait for this tick, in rising order, and takes them out. There must be room for them.
    /// It costs what it costs to take each of them out and to sort them.
    pub fn take_tick(&mut self, tick: u64, out: &mut Vec<u32>)
        requires room { length out.old.items + length (due self.old tick) ≤ vec_capacity out.old }
        ensures taken { out.new.items ≡ out.old.items ++ due self.old tick }
        ensures rest { self.new ≡ without self.old tick }
        ensures capacity { vec_capacity out.new ≡ vec_capacity out.old }
    {
        self.turn_to(tick);
        let start = out.len();
        while let Some(device) = self.pop(tick) {
            out.push_reserved(device);
        }
        sort_from(out, start);
    }

    // Lets the near ticks begin at this one, where no device waits for one before it.
    fn turn_to(&mut self, tick: u64)
        ensures { self.new ≡ self.old }
    {
        match self.near.first(self.base) {
            None => self.base = tick,
            Some(first) => {
                if self.base <= tick && tick <= first {
                    self.base = tick;
                }
            }
        }
    }

    // Takes out a device that waits for this tick; None where none does.
    fn pop(&mut self, tick: u64) -> Option<u32>
        ensures { Pops self.old self.new tick result }
    {
        match self.near.pop(self.base, tick) {
            Some(device) => Some(device),
            None => self.far.pop(tick),
        }
    }
}

// Puts the elements from a place on into rising order.
fn sort_from(out: &mut Vec<u32>, start: usize)
    requires { start ≤ vec_len out.old }
    ensures front { take start out.new.items ≡ take start out.old.items }
    ensures permutation { IsPermutation (drop start out.old.items) (drop start out.new.items) }
    ensures sorted { IsSorted nat_cmp (drop start out.new.items) }
    ensures capacity { vec_capacity out.new ≡ vec_capacity out.old }
{
    out[start..].sort_unstable();
}
