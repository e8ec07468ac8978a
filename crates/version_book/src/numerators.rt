//! The voltage of a wave at a tick.

ghost use Rattle.std.specs.Prelude.{◌≡◌, ◌≤◌, ◌^◌, Some};
ghost use Rattle.std.specs.Option.{option_map};
ghost use Rattle.node_ramps.specs.Lines.{num_at};
ghost use Rattle.histories.specs.Place.{IsPlace};
ghost use Rattle.histories.specs.Track.{IsBounded, IsTrack};
ghost use Rattle.circuit_model.specs.Carried.{voltage_at};

use circuit_model::Line;

/// The numerator at a tick, over the denominator of the line in force there.
pub(crate) fn numerator_at(lines: &[Line], tick: u64) -> i128
    requires lines { IsTrack 0 lines.now }
    requires tick { tick ≤ 10 ^ 10 }
    ensures { option_map (λ v. v.num) (voltage_at lines.now tick) ≡ Some result }
{
    numerator(&lines[place_at(lines, tick)], tick)
}

/// The numerator of a line at a tick from its start on.
fn numerator(line: &Line, tick: u64) -> i128
    requires bounded { IsBounded line.now }
    requires started { line.now.start ≤ tick }
    requires tick { tick ≤ 10 ^ 10 }
    ensures { result ≡ num_at line.now tick }
{
    line.num + line.rate * i128::from(tick - line.start)
}

/// The place of the line in force at a tick: of the last that begins at the tick or before.
fn place_at(lines: &[Line], tick: u64) -> usize
    requires { IsTrack 0 lines.now }
    ensures { IsPlace lines.now tick result }
{
    lines.partition_point(|line| line.start <= tick) - 1
}
