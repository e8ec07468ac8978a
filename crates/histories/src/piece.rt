ghost use Rattle.std.specs.Prelude.{◌≡◌, ◌↔◌, ◌<◌, ◌≤◌, IfOk, IsTrue};
ghost use Rattle.std.specs.List.{All};
ghost use Rattle.histories.specs.Track.{IsBounded};
ghost use Rattle.histories.specs.Piece.{IsPiece, IsShape, rising_starts};

use node_ramps::{Line, Ramp};
use std::marker::Model;
use thiserror::Error;

/// The least and the largest denominator, in attofarads.
const DENS: (u64, u64) = (1, 1_000_000_000_000);

/// The largest numerator of a line that begins at tick 0, and what each tick adds to it, which is also the largest rate.
const NUM: u128 = 1_000_000_000_000_000_000_000;

const RATE: u128 = 1_000_000_000_000_000;

/// Why ramps are no piece.
#[derive(Clone, Copy, Debug, PartialEq, Eq, Error)]
pub enum PieceRefusal {
    /// It ends where it begins or before, or its ramps do not begin at its first tick, rise, and begin at or before its
    /// last.
    #[error("wrong shape")]
    Shape,
    /// A denominator, value or rate is beyond its limit.
    #[error("out of bounds")]
    Bound,
}

/// What a run found for one node: its ramps from a tick to a later one. A contract sees their lines.
#[derive(Drop)]
pub struct Piece {
    node: u32,
    from: u64,
    until: u64,
    ramps: Vec<Ramp>,
}

impl Model for Piece {
    ghost use Rattle.histories.specs.Piece.{IsPiece, PieceValue};

    ghost Value = { PieceValue };

    ghost view = { λ p. record {
      node = p.node;
      from = p.from;
      until = p.until;
      lines = p.ramps.items;
    } };

    ghost invariant = { λ p. IsPiece p.from p.until p.ramps.items };
}

impl Piece {
    /// The piece of the node with this number from tick `from` to tick `until`.
    ///
    /// # Errors
    ///
    /// `Shape` where `from` is not below `until`, or the ramps do not begin at `from`, rise, and begin at or before
    /// `until`. Otherwise `Bound` where a ramp has a denominator that is not from 1 to 10^12, a rate above 10^15 in
    /// size, or at its start `t` a numerator above `10^21 + 10^15 * t` in size.
    pub fn of(node: u32, from: u64, until: u64, ramps: Vec<Ramp>) -> Result<Piece, PieceRefusal>
        ensures piece { IfOk result (λ p. p ≡ record {
          node = node;
          from = from;
          until = until;
          lines = ramps.items;
        }) }
        ensures shape { (result ≡ Err PieceRefusal.Shape) ↔ ¬ IsShape from until ramps.items }
        ensures bound { (result ≡ Err PieceRefusal.Bound)
            ↔ (IsShape from until ramps.items × ¬ All IsBounded ramps.items) }
    {
        if !is_shape(from, until, &ramps) {
            return Err(PieceRefusal::Shape);
        }
        if !are_bounded(&ramps) {
            return Err(PieceRefusal::Bound);
        }
        Ok(Piece {
            node,
            from,
            until,
            ramps,
        })
    }

    /// The node's number.
    pub fn node(&self) -> u32
        ensures { result ≡ self.now.node }
    {
        self.node
    }

    /// The tick at which it begins.
    pub fn from(&self) -> u64
        ensures from { result ≡ self.now.from }
        ensures ordered { result < self.now.until }
    {
        self.from
    }

    /// The last tick that it tells of.
    pub fn until(&self) -> u64
        ensures { result ≡ self.now.until }
    {
        self.until
    }

    /// Its ramps.
    pub fn ramps(&self) -> &[Ramp]
        ensures ramps { result.now ≡ self.now.lines }
        ensures piece { IsPiece self.now.from self.now.until self.now.lines }
    {
        self.ramps.as_slice()
    }

    /// Its ramps, and the piece no more.
    pub(crate) fn into_ramps(self) -> Vec<Ramp>
        ensures ramps { result.items ≡ self.lines }
        ensures piece { IsPiece self.from self.until self.lines }
    {
        self.ramps
    }
}

/// Whether these can be the ramps of a piece from `from` to `until`.
fn is_shape(from: u64, until: u64, ramps: &[Ramp]) -> bool
    ensures { IsTrue result ↔ IsShape from until ramps.now }
{
    let Some(first) = ramps.first() else {
        return false;
    };
    if until <= from || first.line().start != from {
        return false;
    }
    are_rising(ramps) && are_by(until, ramps)
}

/// Whether each begins after the one before it.
fn are_rising(ramps: &[Ramp]) -> bool
    ensures { result ≡ rising_starts ramps.now }
{
    let after = ramps.iter().skip(1);
    ramps
        .iter()
        .zip(after)
        .all(|(before, after)| before.line().start < after.line().start)
}

/// Whether each begins at the tick or before.
fn are_by(tick: u64, ramps: &[Ramp]) -> bool
    ensures { IsTrue result ↔ All (λ l. l.start ≤ tick) ramps.now }
{
    ramps.iter().all(|ramp| ramp.line().start <= tick)
}

/// Whether each is in its limits.
fn are_bounded(ramps: &[Ramp]) -> bool
    ensures { IsTrue result ↔ All IsBounded ramps.now }
{
    ramps.iter().all(|ramp| is_bounded(&ramp.line()))
}

/// Whether a line is in its limits.
fn is_bounded(line: &Line) -> bool
    ensures { IsTrue result ↔ IsBounded line.now }
{
    DENS.0 <= line.den
        && line.den <= DENS.1
        && line.num.unsigned_abs() <= NUM + RATE * u128::from(line.start)
        && line.rate.unsigned_abs() <= RATE
}
