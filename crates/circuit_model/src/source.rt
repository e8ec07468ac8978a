//! What a source gives at a tick.

ghost use Rattle.std.specs.Prelude.{◌≡◌, ◌≤◌, ◌<◌, ◌+◌, ◌^◌, ℕ, unsigned_abs, length, IsTrue};
ghost use Rattle.semantics.specs.Points.{rising_times};
ghost use Rattle.semantics.specs.Source.{between, pair_at, signed, slope_at};
ghost use Rattle.semantics.specs.Valid.{is_source};
ghost use Rattle.circuit_model.specs.Drive.{course, signed_line, IsNextTurn};
ghost use Rattle.circuit_model.specs.Points.{stretch_at, time_at, IsSpan};

use semantics::{Fraction, Line, Wave};

/// Where a tick lies among the points of a source.
#[derive(Clone, Copy)]
enum Span {
    /// Before the first point.
    Before,
    /// From the point at this place on, and before the next.
    From(usize),
    /// From the last point on.
    Past,
}

/// How many of these points a tick has passed, by a binary search.
fn passed_at(points: &[(u64, i64)], tick: u64) -> usize
    requires { IsTrue (rising_times points.now) }
    ensures bound { result ≤ length points.now }
    ensures passed { (i : ℕ) → i < result → time_at points.now i ≤ tick }
    ensures ahead { (i : ℕ) → result ≤ i → i < length points.now → tick < time_at points.now i }
{
    points.partition_point(|point| point.0 <= tick)
}

/// Where a tick lies among these points.
fn span_at(points: &[(u64, i64)], tick: u64) -> Span
    requires some { 0 < length points.now }
    requires rising { IsTrue (rising_times points.now) }
    ensures { IsSpan points.now tick result }
{
    let passed = passed_at(points, tick);
    if passed == 0 {
        Span::Before
    } else if passed == points.len() {
        Span::Past
    } else {
        Span::From(passed - 1)
    }
}

/// A voltage in microvolts.
fn level(volts: i64) -> Fraction
    ensures { result ≡ record { num = volts; den = 1 } }
{
    Fraction {
        num: i128::from(volts),
        den: 1,
    }
}

/// The voltage at a tick on the straight line between two points, of which the tick has passed the first alone.
fn between(from: &(u64, i64), to: &(u64, i64), tick: u64) -> Fraction
    requires passed { from.now.0 ≤ tick }
    requires ahead { tick < to.now.0 }
    requires short { to.now.0 ≤ 10 ^ 10 }
    requires from { unsigned_abs from.now.1 ≤ 10 ^ 9 }
    requires to { unsigned_abs to.now.1 ≤ 10 ^ 9 }
    ensures { result ≡ between from.now to.now tick }
{
    Fraction {
        num: i128::from(from.1) * i128::from(to.0 - tick)
            + i128::from(to.1) * i128::from(tick - from.0),
        den: to.0 - from.0,
    }
}

/// The voltage that a source gives at a tick.
fn pair_at(wave: &Wave, tick: u64) -> Fraction
    requires { IsTrue (is_source wave.now) }
    ensures { result ≡ pair_at wave.now tick }
{
    let points = wave.points();
    match span_at(points, tick) {
        Span::Before => level(points[0].1),
        Span::From(place) => between(&points[place], &points[place + 1], tick),
        Span::Past => level(points[points.len() - 1].1),
    }
}

/// What the numerator of its voltage gains from a tick to the next.
fn slope_at(wave: &Wave, tick: u64) -> i128
    requires { IsTrue (is_source wave.now) }
    ensures { result ≡ slope_at wave.now tick }
{
    let points = wave.points();
    match span_at(points, tick) {
        Span::From(place) => i128::from(points[place + 1].1 - points[place].1),
        Span::Before | Span::Past => 0,
    }
}

/// The voltage that a source gives at a tick to its second node where `second` holds, and else to its first: the second
/// has the sign turned.
pub(crate) fn turned_pair(wave: &Wave, second: bool, tick: u64) -> Fraction
    requires { IsTrue (is_source wave.now) }
    ensures { result ≡ record { num = signed second (pair_at wave.now tick).num; den = (pair_at wave.now tick).den } }
{
    let volts = pair_at(wave, tick);
    Fraction {
        num: if second { -volts.num } else { volts.num },
        den: volts.den,
    }
}

/// What the numerator of that voltage gains from the tick to the next.
pub(crate) fn turned_slope(wave: &Wave, second: bool, tick: u64) -> i128
    requires { IsTrue (is_source wave.now) }
    ensures { result ≡ signed second (slope_at wave.now tick) }
{
    let slope = slope_at(wave, tick);
    if second { -slope } else { slope }
}

/// The line of a source from a tick on.
pub(crate) fn course(wave: &Wave, tick: u64) -> Line
    requires { IsTrue (is_source wave.now) }
    ensures { result ≡ course wave.now tick }
{
    let Fraction { num, den } = pair_at(wave, tick);
    Line {
        start: tick,
        num,
        rate: slope_at(wave, tick),
        den,
    }
}

/// The same line with the sign turned where `second` holds.
pub(crate) fn signed_line(line: Line, second: bool) -> Line
    requires num { unsigned_abs line.num ≤ 10 ^ 20 }
    requires rate { unsigned_abs line.rate ≤ 10 ^ 10 }
    ensures { result ≡ signed_line second line }
{
    if !second {
        return line;
    }
    Line {
        num: -line.num,
        rate: -line.rate,
        ..line
    }
}

/// The slope and the denominator of the voltage of a source that has passed so many of its points.
fn stretch_at(points: &[(u64, i64)], passed: usize) -> (i128, u64)
    requires source { IsTrue (is_source points.now) }
    requires passed { passed ≤ length points.now }
    ensures { result ≡ stretch_at points.now passed }
{
    if passed == 0 || passed == points.len() {
        return (0, 1);
    }
    let (from, to) = (points[passed - 1], points[passed]);
    (i128::from(to.1 - from.1), to.0 - from.0)
}

/// The next tick up to the stop at which the line of a source turns.
pub(crate) fn next_turn(wave: &Wave, tick: u64, stop: u64) -> Option<u64>
    requires source { IsTrue (is_source wave.now) }
    requires tick { tick ≤ stop }
    ensures { IsNextTurn (course wave.now) stop tick result }
{
    let points = wave.points();
    let passed = passed_at(points, tick);
    let now = stretch_at(points, passed);
    for place in passed..points.len() {
        let next = points[place].0;
        if next > stop {
            return None;
        }
        if stretch_at(points, place + 1) != now {
            return Some(next);
        }
    }
    None
}
