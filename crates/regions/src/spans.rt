ghost use Rattle.std.specs.Prelude.{◌≡◌, ◌<◌, ◌≤◌, ◌||◌, ◌&&◌, ◌⊎◌, not, true, false, ℕ, ◌++◌, length, take, drop, IfOk, OnOk, OnErr};
ghost use Rattle.regions.specs.Spans.{BeginBy, IsBoth, IsJoined, IsLeastFrom, IsNext, IsSpans, IsWith, has, some_span, span_of, within};

use crate::span::Span;
use std::alloc::{AllocError, Global};
use std::marker::Model;

/// A set of ticks. A contract sees it as the spans that it is made of, and speaks of its ticks. They are in order, and
/// no two touch.
#[derive(Drop)]
pub struct Spans {
    spans: Vec<Span>,
    alloc: Global,
}

impl Model for Spans {
    ghost use Rattle.std.specs.Prelude.{List};
    ghost use Rattle.regions.specs.declared.span.Span.{Span};
    ghost use Rattle.regions.specs.Spans.{IsSpans};

    ghost Value = { List Span };

    ghost view = { λ s. s.spans.items };

    ghost invariant = { λ s. IsSpans s.spans.items };
}

impl Spans {
    /// The set with no tick.
    pub fn new(alloc: Global) -> Spans
        ensures { (t : ℕ) → has result t ≡ false }
    {
        Spans {
            spans: Vec::new(alloc),
            alloc,
        }
    }

    /// The least tick, `None` exactly where there is none.
    pub fn least(&self) -> Option<u64>
        ensures { IsLeastFrom self.now 0 result }
    {
        self.least_from(0)
    }

    /// The least tick from this one on, `None` exactly where there is none.
    pub fn least_from(&self, tick: u64) -> Option<u64>
        ensures { IsLeastFrom self.now tick result }
    {
        let place = self.count_until(tick);
        if place < self.spans.len() {
            Some(self.spans[place].from.max(tick))
        } else {
            None
        }
    }

    /// Whether the tick is in the set.
    pub fn has(&self, tick: u64) -> bool
        ensures { result ≡ has self.now tick }
    {
        let place = self.count_until(tick);
        place < self.spans.len() && self.spans[place].from <= tick
    }

    /// An equal set.
    pub fn copy(&self) -> Result<Spans, AllocError>
        ensures { IfOk result (λ copy. copy ≡ self.now) }
    {
        Ok(Spans {
            spans: Vec::from_slice(self.alloc, &self.spans)?,
            alloc: self.alloc,
        })
    }

    /// Adds the ticks from `from` on and before `until`. Behind the last span that takes constant time.
    pub fn add(&mut self, from: u64, until: u64) -> Result<(), AllocError>
        requires { from < until }
        ensures ok { OnOk result ((t : ℕ)
            → has self.new t ≡ (has self.old t || within from until t)) }
        ensures err { OnErr result (self.new ≡ self.old) }
    {
        let first = self.first_near(from);
        let last = self.count_by(until);
        let span = self.joined(first, last, from, until);
        let with = vec![in self.alloc; span]?;
        replace(&mut self.spans, first, last, with)
    }

    /// Takes away the ticks from `from` on and before `until`.
    pub fn cut(&mut self, from: u64, until: u64) -> Result<(), AllocError>
        requires { from < until }
        ensures ok { OnOk result ((t : ℕ)
            → has self.new t ≡ (has self.old t && not (within from until t))) }
        ensures err { OnErr result (self.new ≡ self.old) }
    {
        let first = self.count_until(from);
        let last = self.count_by(until - 1);
        if last <= first {
            return Ok(());
        }
        let mut with = Vec::new(self.alloc);
        push_some(&mut with, self.spans[first].from, from)?;
        push_some(&mut with, until, self.spans[last - 1].until)?;
        replace(&mut self.spans, first, last, with)
    }

    /// Adds the ticks of another set. It goes through both once.
    pub fn join(&mut self, other: &Spans) -> Result<(), AllocError>
        ensures ok { OnOk result ((t : ℕ) → has self.new t ≡ (has self.old t || has other.now t)) }
        ensures err { OnErr result (self.new ≡ self.old) }
    {
        self.spans = merged(self.alloc, &self.spans, &other.spans)?;
        Ok(())
    }

    /// The place of the first span that does not end before a tick.
    fn first_near(&self, tick: u64) -> usize
        ensures count { result ≤ length self.now }
        ensures before { (k : ℕ) → k < result → (span_of self.now k).until < tick }
        ensures after { (k : ℕ) → result ≤ k → k < length self.now
            → tick ≤ (span_of self.now k).until }
    {
        let count = self.spans.len();
        if count == 0 || self.spans[count - 1].until < tick {
            return count;
        }
        if self.spans[count - 1].from <= tick {
            return count - 1;
        }
        self.spans.partition_point(|span| span.until < tick)
    }

    /// The ticks from `from` on and before `until`, and those of the spans from one place to another, which lie there or
    /// touch them.
    fn joined(&self, first: usize, last: usize, from: u64, until: u64) -> Span
        requires { last ≤ length self.now }
        ensures { IsJoined self.now first last from until result }
    {
        if first < last {
            Span {
                from: from.min(self.spans[first].from),
                until: until.max(self.spans[last - 1].until),
            }
        } else {
            Span { from, until }
        }
    }

    /// How many spans end at a tick or before.
    fn count_until(&self, tick: u64) -> usize
        ensures count { result ≤ length self.now }
        ensures before { (k : ℕ) → k < result → (span_of self.now k).until ≤ tick }
        ensures after { (k : ℕ) → result ≤ k → k < length self.now
            → tick < (span_of self.now k).until }
    {
        self.spans.partition_point(|span| span.until <= tick)
    }

    /// How many spans begin at a tick or before.
    fn count_by(&self, tick: u64) -> usize
        ensures count { result ≤ length self.now }
        ensures before { (k : ℕ) → k < result → (span_of self.now k).from ≤ tick }
        ensures after { (k : ℕ) → result ≤ k → k < length self.now
            → tick < (span_of self.now k).from }
    {
        let count = self.spans.len();
        if count == 0 || self.spans[count - 1].from <= tick {
            return count;
        }
        self.spans.partition_point(|span| span.from <= tick)
    }
}

/// Puts a span last, where it has a tick.
fn push_some(spans: &mut Vec<Span>, from: u64, until: u64) -> Result<(), AllocError>
    ensures { OnOk result (spans.new.items ≡ spans.old.items ++ some_span from until) }
{
    if from < until {
        spans.push(Span { from, until })?;
    }
    Ok(())
}

/// Puts these in place of the spans from one place to another.
fn replace(
    spans: &mut Vec<Span>,
    first: usize,
    last: usize,
    mut with: Vec<Span>,
) -> Result<(), AllocError>
    requires first { first ≤ length spans.old.items }
    requires last { last ≤ length spans.old.items }
    ensures ok { OnOk result (spans.new.items
        ≡ take first spans.old.items ++ (with.items ++ drop last spans.old.items)) }
    ensures err { OnErr result (spans.new.items ≡ spans.old.items) }
{
    with.extend_from_slice(&spans[last..])?;
    spans.reserve(with.len())?;
    spans.truncate(first);
    spans.append(&mut with)
}

/// The spans of two sets as those of one.
fn merged(alloc: Global, one: &[Span], other: &[Span]) -> Result<Vec<Span>, AllocError>
    requires one { IsSpans one.now }
    requires other { IsSpans other.now }
    ensures { IfOk result (λ both. IsBoth one.now other.now both.items) }
{
    let mut both = Vec::new(alloc);
    let mut place = 0;
    let mut other_place = 0;
    while place < one.len() || other_place < other.len() {
        if is_next(one, place, other, other_place) {
            push_joined(&mut both, one[place])?;
            place += 1;
        } else {
            push_joined(&mut both, other[other_place])?;
            other_place += 1;
        }
    }
    Ok(both)
}

/// Whether the span at a place of the first comes before the one at a place of the other. One of the two is there.
fn is_next(one: &[Span], place: usize, other: &[Span], other_place: usize) -> bool
    requires by { place ≤ length one.now }
    requires other_by { other_place ≤ length other.now }
    requires some { (place < length one.now) ⊎ (other_place < length other.now) }
    ensures one { result ≡ true → IsNext one.now place other.now other_place }
    ensures other { result ≡ false → IsNext other.now other_place one.now place }
{
    other_place == other.len() || place < one.len() && one[place].from <= other[other_place].from
}

/// Adds the ticks of a span that begins before none of these. The last span takes it in where they touch.
fn push_joined(spans: &mut Vec<Span>, span: Span) -> Result<(), AllocError>
    requires spans { IsSpans spans.old.items }
    requires some { span.from < span.until }
    requires order { BeginBy span.from spans.old.items }
    ensures { OnOk result (IsWith span spans.old.items spans.new.items) }
{
    let count = spans.len();
    if count > 0 && span.from <= spans[count - 1].until {
        let until = spans[count - 1].until.max(span.until);
        spans[count - 1].until = until;
    } else {
        spans.push(span)?;
    }
    Ok(())
}
