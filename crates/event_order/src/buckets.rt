ghost use Rattle.std.specs.Prelude.{◌≡◌, ◌≤◌, ℕ, ◌<◌, ◌++◌, ◌∷◌, [], length, IfOk, OnErr, IfSome, IfNone, slice_get, OnOk, vec_len};
ghost use Rattle.std.specs.List.{swap_remove};
ghost use Rattle.std.specs.Option.{option_to_list};
ghost use Rattle.event_order.specs.Buckets.{bucket, lists_of, ChangesAt, SameBuckets, IsNext};

use crate::marks::{mark, next_mark};
use std::alloc::{AllocError, Global};
use std::marker::Model;

/// Lists of devices, one for each of 256 places.
#[derive(Drop)]
pub(crate) struct Buckets {
    // The devices at each place, in no order. A place past the end has none.
    lists: Vec<Vec<u32>>,
    // Which places have a device.
    in_use: [u128; 2],
}

impl Model for Buckets {
    ghost use Rattle.std.specs.Prelude.{ℕ, List};

    ghost Value = { List (List ℕ) };

    ghost use Rattle.event_order.specs.Buckets.{lists_of, IsMarked};

    ghost view = { λ b. lists_of b.lists.items };

    ghost invariant = { λ b. IsMarked b.in_use (lists_of b.lists.items) };
}

impl Buckets {
    /// No devices.
    pub(crate) fn new(alloc: Global) -> Buckets
        ensures { result ≡ [] }
    {
        Buckets {
            lists: Vec::new(alloc),
            in_use: [0; 2],
        }
    }

    /// Puts a device last at a place, and answers its index there.
    pub(crate) fn push(&mut self, place: usize, device: u32) -> Result<usize, AllocError>
        requires place { place < 256 }
        ensures index { IfOk result (λ index. index ≡ length (bucket self.old place)) }
        ensures ok { IfOk result (λ _. ChangesAt self.old self.new place (bucket self.old place ++ device ∷ [])) }
        ensures err { OnErr result (SameBuckets self.old self.new) }
    {
        make_list(&mut self.lists, place)?;
        let list = &mut self.lists[place];
        let index = list.len();
        list.push(device)?;
        mark(&mut self.in_use, place, true);
        Ok(index)
    }

    /// Takes out the device at an index. The last one at the place then stands there, and is the answer; None where it
    /// was the last one itself.
    pub(crate) fn swap_remove(&mut self, place: usize, index: usize) -> Option<u32>
        requires place { place < 256 }
        requires index { index < length (bucket self.old place) }
        ensures rest { ChangesAt self.old self.new place (swap_remove (bucket self.old place) index 0) }
        ensures moved { result ≡ slice_get (swap_remove (bucket self.old place) index 0) index }
    {
        let list = &mut self.lists[place];
        list.swap_remove(index);
        let moved = list.get(index).copied();
        let some = !list.is_empty();
        mark(&mut self.in_use, place, some);
        moved
    }

    /// Takes out the last device at a place; None where it has none.
    pub(crate) fn pop(&mut self, place: usize) -> Option<u32>
        requires place { place < 256 }
        ensures last { bucket self.old place ≡ bucket self.new place ++ option_to_list result }
        ensures rest { ChangesAt self.old self.new place (bucket self.new place) }
        ensures none { IfNone result (bucket self.old place ≡ []) }
    {
        if self.lists.len() <= place {
            return None;
        }
        let list = &mut self.lists[place];
        let device = list.pop();
        let some = !list.is_empty();
        mark(&mut self.in_use, place, some);
        device
    }

    /// How many places on from this one the next with a device is, where the first comes after the last.
    pub(crate) fn ahead(&self, place: usize) -> Option<usize>
        requires place { place < 256 }
        ensures none { IfNone result ((other : ℕ) → other < 256 → bucket self.now other ≡ []) }
        ensures some { IfSome result (IsNext self.now place) }
    {
        next_mark(&self.in_use, place)
    }
}

// Lengthens the lists, so that this place has one.
fn make_list(lists: &mut Vec<Vec<u32>>, place: usize) -> Result<(), AllocError>
    ensures same { SameBuckets (lists_of lists.old.items) (lists_of lists.new.items) }
    ensures there { OnOk result (place < vec_len lists.new) }
{
    while lists.len() <= place {
        let list = Vec::new(*lists.allocator());
        lists.push(list)?;
    }
    Ok(())
}
