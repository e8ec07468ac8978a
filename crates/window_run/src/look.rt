ghost use Rattle.std.specs.Prelude.{◌≡◌, ◌<◌, [], length, All, OnOk};
ghost use Rattle.window_run.specs.Net.{IsNet};
ghost use Rattle.window_run.specs.Stage.{AreInside, AreLater, AreLines, CellsBut, DuesBut};
ghost use Rattle.window_run.specs.Circuit.{net_of};

use crate::device::next_due;
use crate::wait::schedule;
use circuit_model::Circuit;
use event_order::Queue;
use semantics::Line;
use std::alloc::AllocError;

/// Finds when each of these devices is due.
pub(crate) fn look(
    circuit: &Circuit,
    todo: &[u32],
    lines: &[Line],
    cells: &[(u32, u32)],
    dues: &mut Queue,
    now: u64,
    end: u64,
) -> Result<(), AllocError>
    requires net { IsNet (net_of circuit.now) }
    requires lines { AreLines lines.now now end }
    requires count_lines { length lines.now ≡ (net_of circuit.now).nodes }
    requires count_cells { length cells.now ≡ (net_of circuit.now).devices }
    requires todo { All (λ k. k < (net_of circuit.now).devices) todo.now }
    requires cells { CellsBut [] (net_of circuit.now) lines.now cells.now now }
    requires dues { DuesBut todo.now (net_of circuit.now) lines.now now end cells.now dues.old }
    requires later { AreLater dues.old now }
    requires inside { AreInside (net_of circuit.now).devices dues.old }
    ensures dues { OnOk result (DuesBut [] (net_of circuit.now) lines.now now end cells.now dues.new) }
    ensures later { OnOk result (AreLater dues.new now) }
    ensures inside { OnOk result (AreInside (net_of circuit.now).devices dues.new) }
{
    for device in todo {
        let due = next_due(circuit, *device, lines, cells[*device as usize], now, end);
        schedule(dues, *device, due)?;
    }
    Ok(())
}
