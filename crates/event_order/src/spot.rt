ghost use Rattle.std.specs.Prelude.{◌≡◌, ℕ, ◌%◌, ◌<◌, Some, IsSome, length, vec_len};
ghost use Rattle.event_order.specs.Buckets.{ChangesAt, Holds};
ghost use Rattle.event_order.specs.Spots.{left_of, list_of, spot_at, Reindexed, SpotOnly};

use crate::buckets::Buckets;

/// Where a device stands: the tick that it waits for, and its index in the list of its place.
#[derive(Clone, Copy)]
pub(crate) struct Spot {
    pub(crate) tick: u64,
    pub(crate) index: usize,
}

/// The place of a tick's devices.
pub(crate) fn place_of(tick: u64) -> usize
    ensures { result ≡ tick % 256 }
{
    (tick % 256) as usize
}

/// Where a device stands that has a spot.
pub(crate) fn spot_of(spots: &[Option<Spot>], device: u32) -> Spot
    requires { IsSome (spot_at spots.now device) }
    ensures { spot_at spots.now device ≡ Some result }
{
    match spots[device as usize] {
        Some(spot) => spot,
        None => unreachable!(),
    }
}

/// Takes the device of a spot out of its list. The one that then stands in its place has that index.
pub(crate) fn leave(spots: &mut Vec<Option<Spot>>, buckets: &mut Buckets, spot: Spot)
    requires index { spot.index < length (list_of buckets.old spot) }
    requires known { (index device : ℕ) → Holds (list_of buckets.old spot) index device
        → IsSome (spot_at spots.old.items device) }
    ensures list { ChangesAt buckets.old buckets.new (spot.tick % 256) (left_of buckets.old spot) }
    ensures spots { Reindexed spots.old.items spots.new.items (left_of buckets.old spot) spot.index }
    ensures len { vec_len spots.new ≡ vec_len spots.old }
{
    if let Some(device) = buckets.swap_remove(place_of(spot.tick), spot.index) {
        reindex(spots, device, spot.index);
    }
}

// Gives a device another index.
fn reindex(spots: &mut Vec<Option<Spot>>, device: u32, index: usize)
    requires { IsSome (spot_at spots.old.items device) }
    ensures spot { SpotOnly spots.old.items spots.new.items device index }
    ensures len { vec_len spots.new ≡ vec_len spots.old }
{
    let Spot { tick, .. } = spot_of(spots, device);
    spots[device as usize] = Some(Spot { tick, index });
}
