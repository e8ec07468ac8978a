ghost use Rattle.std.specs.Prelude.{◌≡◌, ℕ, ◌+◌, ◌≤◌, pos};
ghost use Rattle.semantics.specs.Text.{floor};
ghost use Rattle.node_ramps.specs.Lines.{num_at, turned, InBounds};

use crate::Steps;
use semantics::Line;
use std::marker::Model;
use std::sync::ledger::Ledger;

/// A straight line of a node's voltage; each call that makes one says whether it is counted. A contract sees it as the
/// line.
#[derive(Clone, Copy)]
pub struct Ramp {
    line: Line,
}

impl Model for Ramp {
    ghost use Rattle.semantics.specs.declared.line.Line.{Line};

    ghost Value = { Line };

    ghost view = { λ r. r.line };

    ghost inverse = { λ l. record { line = l } };
}

impl Ramp {
    /// The first ramp of a node, counted.
    pub fn first<L: Ledger>(line: Line, steps: &mut Steps<L>) -> Ramp
        ensures line { result ≡ line }
        ensures counted { steps.new ≡ steps.old + 1 }
    {
        steps.count();
        Ramp { line }
    }

    /// The ramp that follows this one at a tick, counted: it begins with this ramp's numerator there, and has another
    /// rate and the same denominator.
    pub fn next<L: Ledger>(&self, tick: u64, rate: i128, steps: &mut Steps<L>) -> Ramp
        requires in_bounds { InBounds self.now tick }
        ensures line { result ≡ turned self.now tick rate }
        ensures counted { steps.new ≡ steps.old + 1 }
    {
        Ramp::first(self.turned(tick, rate), steps)
    }

    /// A ramp that stays at `num / den` microvolts. It is not counted.
    pub fn still(start: u64, num: i128, den: u64) -> Ramp
        ensures { result ≡ record { start = start; num = num; rate = pos 0; den = den } }
    {
        let line = Line {
            start,
            num,
            rate: 0,
            den,
        };
        Ramp { line }
    }

    /// The same ramp from a later start. It is not counted.
    pub fn rebase(&self, tick: u64) -> Ramp
        requires in_bounds { InBounds self.now tick }
        ensures line { result ≡ turned self.now tick self.now.rate }
        ensures same { (later : ℕ) → tick ≤ later → num_at result later ≡ num_at self.now later }
    {
        Ramp {
            line: self.turned(tick, self.line.rate),
        }
    }

    /// The line that it is.
    pub fn line(&self) -> Line
        ensures { result ≡ self.now }
    {
        self.line
    }

    /// Its numerator at a tick.
    pub fn at(&self, tick: u64) -> i128
        requires in_bounds { InBounds self.now tick }
        ensures { result ≡ num_at self.now tick }
    {
        self.line.num + self.line.rate * i128::from(tick - self.line.start)
    }

    /// Its whole microvolts at a tick, rounded down.
    pub fn floor_at(&self, tick: u64) -> i128
        requires in_bounds { InBounds self.now tick }
        ensures { result ≡ floor (num_at self.now tick) self.now.den }
    {
        self.at(tick).div_euclid(i128::from(self.line.den))
    }

    // From this tick on at this rate.
    fn turned(&self, tick: u64, rate: i128) -> Line
        requires in_bounds { InBounds self.now tick }
        ensures { result ≡ turned self.now tick rate }
    {
        Line {
            start: tick,
            num: self.at(tick),
            rate,
            den: self.line.den,
        }
    }
}
