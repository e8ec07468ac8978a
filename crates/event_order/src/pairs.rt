ghost use Rattle.std.specs.Prelude.{IfOk, IsSorted, IsPermutation};
ghost use Rattle.std.specs.List.{flat_map};
ghost use Rattle.event_order.specs.Ticks.{by_tick};

use std::alloc::{AllocError, Global};

/// All pairs of a tick and a device that the lists have, by tick and then by device, each as often as it is there. It
/// takes the time to sort them.
pub fn merge(alloc: Global, lists: &[Vec<(u64, u32)>]) -> Result<Vec<(u64, u32)>, AllocError>
    ensures sorted { IfOk result (λ merged. IsSorted by_tick merged.items) }
    ensures all { IfOk result (λ merged. IsPermutation (flat_map (λ pairs. pairs.items) lists.now) merged.items) }
{
    let mut merged = Vec::new(alloc);
    for pairs in lists {
        merged.extend_from_slice(pairs)?;
    }
    merged.sort_unstable();
    Ok(merged)
}
