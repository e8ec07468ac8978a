//! What waits for a tick.

ghost use Rattle.std.specs.Prelude.{◌≡◌, ◌==◌, ℕ, if◌then◌else◌, OnOk};
ghost use Rattle.std.specs.FinMap as map;
ghost use Rattle.window_run.specs.Stage.{AreInside, Takes};

use event_order::Queue;
use std::alloc::AllocError;

/// Lets a device or node wait for this tick, or for none.
pub(crate) fn schedule(queue: &mut Queue, k: u32, tick: Option<u64>) -> Result<(), AllocError>
    ensures { OnOk result ((j : ℕ) → map.get queue.new j ≡ if j == k then tick else map.get queue.old j) }
{
    match (queue.tick(k), tick) {
        (Some(_), Some(tick)) => queue.move_to(k, tick)?,
        (Some(_), None) => queue.remove(k),
        (None, Some(tick)) => queue.put(tick, k)?,
        (None, None) => {}
    }
    Ok(())
}

/// Takes what waits for this tick out of the queue, of so many devices or nodes.
pub(crate) fn take_due(
    queue: &mut Queue,
    count: usize,
    now: u64,
    out: &mut Vec<u32>,
) -> Result<(), AllocError>
    requires { AreInside count queue.old }
    ensures { OnOk result (Takes now queue.old queue.new out.new.items) }
{
    out.clear();
    out.reserve(count)?;
    queue.take_tick(now, out);
    Ok(())
}
