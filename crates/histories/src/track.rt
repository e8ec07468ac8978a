ghost use Rattle.std.specs.Prelude.{◌≡◌, ◌≢◌, ◌≤◌, ◌<◌, ◌+◌, ◌*◌, ◌^◌, ℕ, ◌++◌, [], ◌∷◌, List, length, unsigned_abs, IsTrue, IsFalse, IfOk, OnOk, OnErr, nat_lt, nat_le, ◌&&◌, if◌then◌else◌};
ghost use Rattle.std.specs.List.{All};
ghost use Rattle.node_ramps.specs.Lines.{voltage};
ghost use Rattle.histories.specs.Track.{IsBounded, IsTrack, line_of, pair};
ghost use Rattle.histories.specs.Pairs.{IsEnd, IsSmooth, line_at, rate_at, step_between, wave_of};
ghost use Rattle.histories.specs.Place.{IsPlace, IsTail};
ghost use Rattle.semantics.specs.declared.line.Line.{Line};

use crate::piece::Piece;
use node_ramps::{Line, Ramp};
use semantics::Fraction;
use std::alloc::{AllocError, Global};
use std::marker::Model;

/// The record of one node: ramps one after another from tick 0 on, each in force until the next begins. A contract sees
/// their lines.
#[derive(Drop)]
pub struct Track {
    ramps: Vec<Ramp>,
}

impl Model for Track {
    ghost use Rattle.std.specs.Prelude.{List};
    ghost use Rattle.semantics.specs.declared.line.Line.{Line};
    ghost use Rattle.histories.specs.Track.{IsTrack};

    ghost Value = { List Line };

    ghost view = { λ t. t.ramps.items };

    ghost invariant = { λ t. IsTrack 0 t.ramps.items };
}

/// The largest step of a line in its limits.
const MOST: u128 = 1_000_000_000_000_000;

/// What leads from a pair to the next along a line in its limits, and 0 where none does.
fn step_between(a: &Fraction, b: &Fraction) -> i128
    requires a { unsigned_abs a.now.num ≤ 2 * 10 ^ 25 }
    requires b { unsigned_abs b.now.num ≤ 2 * 10 ^ 25 }
    ensures value { result ≡ step_between a.now b.now }
    ensures small { unsigned_abs result ≤ 10 ^ 15 }
{
    let step = b.num - a.num;
    if a.den == b.den && step.unsigned_abs() <= MOST {
        step
    } else {
        0
    }
}

/// The pair of a line at a tick.
fn voltage(line: &Line, tick: u64) -> Fraction
    requires bounded { IsBounded line.now }
    requires started { line.now.start ≤ tick }
    requires tick { tick ≤ 10 ^ 10 }
    ensures { result ≡ voltage line.now tick }
{
    Fraction {
        num: line.num + line.rate * i128::from(tick - line.start),
        den: line.den,
    }
}

impl Track {
    /// The node with this pair at every tick.
    pub(crate) fn level(alloc: Global, ramp: Ramp) -> Result<Track, AllocError>
        requires start { ramp.start ≡ 0 }
        requires bounded { IsBounded ramp }
        ensures { IfOk result (λ track. track ≡ ramp ∷ []) }
    {
        Ok(Track {
            ramps: vec![in alloc; ramp]?,
        })
    }

    /// An equal record.
    pub(crate) fn copy(&self, alloc: Global) -> Result<Track, AllocError>
        ensures { IfOk result (λ track. track ≡ self.now) }
    {
        Ok(Track {
            ramps: Vec::from_slice(alloc, &self.ramps)?,
        })
    }

    /// Its ramps.
    pub(crate) fn ramps(&self) -> &[Ramp]
        ensures ramps { result.now ≡ self.now }
        ensures track { IsTrack 0 result.now }
    {
        self.ramps.as_slice()
    }

    /// The place of the ramp in force at a tick.
    fn place(&self, tick: u64) -> usize
        ensures { IsPlace self.now tick result }
    {
        self.ramps.partition_point(|ramp| ramp.line().start <= tick) - 1
    }

    /// The place of the ramp in force at the next tick, where this is that at a tick.
    fn next_place(&self, tick: u64, place: usize) -> usize
        requires tick { tick < 10 ^ 10 }
        requires place { IsPlace self.now tick place }
        ensures { IsPlace self.now (tick + 1) result }
    {
        if place + 1 < self.ramps.len() && self.ramps[place + 1].line().start == tick + 1 {
            place + 1
        } else {
            place
        }
    }

    /// The last tick up to the stop at which the ramp at this place is in force, as it is at this tick.
    fn last_tick(&self, place: usize, tick: u64, stop: u64) -> u64
        requires place { IsPlace self.now tick place }
        requires order { tick ≤ stop }
        ensures order { tick ≤ result }
        ensures by_stop { result ≤ stop }
        ensures stays { (s : ℕ) → tick ≤ s → s ≤ result → IsPlace self.now s place }
        ensures next { result < stop → IsPlace self.now (result + 1) (place + 1) }
    {
        let count = self.ramps.len();
        if place + 1 < count {
            stop.min(self.ramps[place + 1].line().start - 1)
        } else {
            stop
        }
    }

    /// The pair at a tick, where the ramp at this place is in force.
    fn pair_in(&self, place: usize, tick: u64) -> Fraction
        requires tick { tick ≤ 10 ^ 10 }
        requires place { IsPlace self.now tick place }
        ensures pair { result ≡ pair self.now tick }
        ensures line { result ≡ voltage (line_of self.now place) tick }
        ensures bound { unsigned_abs result.num ≤ 10 ^ 21 + 10 ^ 15 * tick }
        ensures den_from { 1 ≤ result.den }
        ensures den_to { result.den ≤ 10 ^ 12 }
    {
        voltage(&self.ramps[place].line(), tick)
    }

    /// The pair at a tick.
    pub(crate) fn at(&self, tick: u64) -> Fraction
        requires { tick ≤ 10 ^ 10 }
        ensures pair { result ≡ pair self.now tick }
        ensures bound { unsigned_abs result.num ≤ 10 ^ 21 + 10 ^ 15 * tick }
        ensures den_from { 1 ≤ result.den }
        ensures den_to { result.den ≤ 10 ^ 12 }
    {
        self.pair_in(self.place(tick), tick)
    }

    /// What the pair gains from a tick to the next, where this is the pair and the ramp at this place is in force.
    fn rate(&self, place: usize, here: &Fraction, tick: u64, stop: u64) -> i128
        requires stop { stop ≤ 10 ^ 10 }
        requires place { IsPlace self.now tick place }
        requires here { here.now ≡ pair self.now tick }
        requires small { unsigned_abs here.now.num ≤ 2 * 10 ^ 25 }
        ensures value { result ≡ rate_at (pair self.now) stop tick }
        ensures small { unsigned_abs result ≤ 10 ^ 15 }
    {
        if tick < stop {
            let next = self.pair_in(self.next_place(tick, place), tick + 1);
            step_between(here, &next)
        } else {
            0
        }
    }

    /// The line from a tick on, which has the pair of the next tick too where a line in its limits can.
    pub(crate) fn line(&self, tick: u64, stop: u64) -> Line
        requires tick { tick ≤ stop }
        requires stop { stop ≤ 10 ^ 10 }
        ensures line { result ≡ line_at (pair self.now) stop tick }
        ensures bounded { IsBounded result }
    {
        let place = self.place(tick);
        let here = self.pair_in(place, tick);
        let rate = self.rate(place, &here, tick, stop);
        Line {
            start: tick,
            num: here.num,
            rate,
            den: here.den,
        }
    }

    /// Whether the line has the pair at a tick, where the ramp at this place is in force.
    fn is_on(&self, line: &Line, place: usize, tick: u64) -> bool
        requires place { IsPlace self.now tick place }
        requires line { IsBounded line.now }
        requires start { line.now.start ≤ tick }
        requires tick { tick ≤ 10 ^ 10 }
        ensures yes { IsTrue result → pair self.now tick ≡ voltage line.now tick }
        ensures no { IsFalse result → pair self.now tick ≢ voltage line.now tick }
    {
        self.pair_in(place, tick) == voltage(line, tick)
    }

    /// The last tick up to the stop to which this line has the pairs.
    pub(crate) fn line_end(&self, line: &Line, stop: u64) -> u64
        requires start { line.now.start ≤ stop }
        requires stop { stop ≤ 10 ^ 10 }
        requires line { IsBounded line.now }
        requires pair { pair self.now line.now.start ≡ voltage line.now line.now.start }
        ensures { IsEnd (pair self.now) stop line.now result }
    {
        let mut end = line.start;
        let mut place = self.place(end);
        while end < stop {
            let last = self.last_tick(place, end, stop);
            if end < last {
                if line.rate != self.ramps[place].line().rate {
                    return end;
                }
                end = last;
            } else {
                if !self.is_on(line, place + 1, end + 1) {
                    return end;
                }
                place += 1;
                end += 1;
            }
        }
        end
    }

    /// The wave through the pairs: a new line where the rate or the denominator changes.
    pub(crate) fn canonical(&self, alloc: Global, stop: u64) -> Result<Vec<Line>, AllocError>
        requires stop { stop ≤ 10 ^ 10 }
        requires smooth { IsSmooth (pair self.now) stop }
        ensures { IfOk result (λ lines. lines.items ≡ wave_of (pair self.now) stop) }
    {
        let mut lines = Vec::with_capacity(alloc, self.ramps.len())?;
        if stop == 0 {
            lines.push(self.line(0, 0))?;
            return Ok(lines);
        }
        let mut tick = 0;
        while tick < stop {
            let line = self.line(tick, stop);
            tick = self.line_end(&line, stop);
            lines.push(line)?;
        }
        Ok(lines)
    }

    /// Sets the pair at tick 0 alone.
    pub(crate) fn start(&mut self, alloc: Global, ramp: Ramp) -> Result<(), AllocError>
        requires start { ramp.start ≡ 0 }
        requires bounded { IsBounded ramp }
        ensures first { OnOk result (pair self.new 0 ≡ voltage ramp 0) }
        ensures later { OnOk result ((t : ℕ) → 0 < t → pair self.new t ≡ pair self.old t) }
        ensures err { OnErr result (self.new ≡ self.old) }
    {
        if self.at(0) == voltage(&ramp.line(), 0) {
            return Ok(());
        }
        let mut ramps = vec![in alloc; ramp]?;
        self.extend_from(1, &mut ramps)?;
        self.ramps = ramps;
        Ok(())
    }

    /// Writes the pairs of a piece at its ticks after the first. What is after the stop may change too.
    pub(crate) fn splice(&mut self, piece: Piece, stop: u64) -> Result<(), AllocError>
        requires until { piece.until ≤ stop }
        requires stop { stop ≤ 10 ^ 10 }
        ensures ok { OnOk result ((t : ℕ) → t ≤ stop → pair self.new t
            ≡ (if nat_lt piece.from t && nat_le t piece.until
            then pair piece.lines t else pair self.old t)) }
        ensures err { OnErr result (self.new ≡ self.old) }
    {
        let from = piece.from();
        let until = piece.until();
        let mut ramps = piece.into_ramps();
        let begin = self.begin(from, &mut ramps);
        self.extend_after(until, stop, &mut ramps)?;
        self.replace_from(begin, ramps)
    }

    /// Where these ramps have another pair than the record at their first tick, takes that tick from them. It gives the
    /// tick at which they then begin.
    fn begin(&self, from: u64, ramps: &mut Vec<Ramp>) -> u64
        requires track { IsTrack from ramps.old.items }
        requires tick { from < 10 ^ 10 }
        ensures tick_from { from ≤ result }
        ensures tick_to { result ≤ from + 1 }
        ensures track { IsTrack result ramps.new.items }
        ensures pairs { (t : ℕ) → result ≤ t → pair ramps.new.items t ≡ pair ramps.old.items t }
        ensures first { result ≡ from → pair ramps.new.items from ≡ pair self.now from }
        ensures by { (t : ℕ) → from < t
            → All (λ l. l.start ≤ t) ramps.old.items → All (λ l. l.start ≤ t) ramps.new.items }
    {
        if voltage(&ramps[0].line(), from) == self.at(from) {
            return from;
        }
        skip_tick(from, ramps);
        from + 1
    }

    /// Puts after ramps up to a tick those of the record from the next tick on, where there is one up to the stop.
    fn extend_after(&self, until: u64, stop: u64, ramps: &mut Vec<Ramp>) -> Result<(), AllocError>
        requires by { All (λ l. l.start ≤ until) ramps.old.items }
        requires stop { stop ≤ 10 ^ 10 }
        ensures track { OnOk result ((from : ℕ)
            → IsTrack from ramps.old.items → IsTrack from ramps.new.items) }
        ensures before { OnOk result ((from t : ℕ) → IsTrack from ramps.old.items → t ≤ until
            → pair ramps.new.items t ≡ pair ramps.old.items t) }
        ensures after { OnOk result ((from t : ℕ) → IsTrack from ramps.old.items → until < t
            → t ≤ stop → pair ramps.new.items t ≡ pair self.now t) }
    {
        if until < stop {
            self.extend_from(until + 1, ramps)?;
        }
        Ok(())
    }

    /// Puts at the end the ramps from a tick on: the one in force, from there, and those after it.
    fn extend_from(&self, tick: u64, out: &mut Vec<Ramp>) -> Result<(), AllocError>
        requires { tick ≤ 10 ^ 10 }
        ensures { OnOk result ((ls : List Line) × IsTail self.now tick ls
            × (out.new.items ≡ out.old.items ++ ls)) }
    {
        let place = self.place(tick);
        out.push(self.ramps[place].rebase(tick))?;
        out.extend_from_slice(&self.ramps[place + 1..])?;
        Ok(())
    }

    /// How many ramps begin before a tick.
    fn count_before(&self, tick: u64) -> usize
        ensures count { result ≤ length self.now }
        ensures before { (k : ℕ) → k < result → (line_of self.now k).start < tick }
        ensures after { (k : ℕ) → result ≤ k → k < length self.now
            → tick ≤ (line_of self.now k).start }
    {
        self.ramps.partition_point(|ramp| ramp.line().start < tick)
    }

    /// Puts these ramps in place of all from a tick on. They are moved, and what is before the tick stays where it is.
    fn replace_from(&mut self, tick: u64, mut ramps: Vec<Ramp>) -> Result<(), AllocError>
        requires { IsTrack tick ramps.items }
        ensures ok { OnOk result ((t : ℕ) → pair self.new t
            ≡ (if nat_lt t tick then pair self.old t else pair ramps.items t)) }
        ensures err { OnErr result (self.new ≡ self.old) }
    {
        let keep = self.count_before(tick);
        if keep == 0 {
            self.ramps = ramps;
            return Ok(());
        }
        let cut = self.ramps.len() - keep;
        self.ramps.reserve(ramps.len().saturating_sub(cut))?;
        self.ramps.truncate(keep);
        self.ramps.append(&mut ramps)
    }
}

/// Takes the first tick from these ramps, which begin at it.
fn skip_tick(from: u64, ramps: &mut Vec<Ramp>)
    requires track { IsTrack from ramps.old.items }
    requires tick { from < 10 ^ 10 }
    ensures tail { IsTail ramps.old.items (from + 1) ramps.new.items }
    ensures by { (t : ℕ) → from < t
        → All (λ l. l.start ≤ t) ramps.old.items → All (λ l. l.start ≤ t) ramps.new.items }
{
    let next = from + 1;
    if ramps.len() > 1 && ramps[1].line().start == next {
        ramps.remove(0);
    } else {
        ramps[0] = ramps[0].rebase(next);
    }
}
