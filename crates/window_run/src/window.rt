ghost use Rattle.std.specs.Prelude.{◌≡◌, ◌↔◌, ◌⊎◌, All, IfSome, IsFalse, IsNone, IsPermutation, IsTrue};
ghost use Rattle.std.specs.List.Sorted.{IsNonDecreasingBy};
ghost use Rattle.histories.specs.Piece.{IsPiece};
ghost use Rattle.window_run.specs.Window.{HasOtherEnds, HasTwoOfOneNode, IsWindow, IsWindowOf, rising_nodes};

use crate::stop::Stop;
use histories::Piece;
use std::marker::Model;

/// What a run found of some nodes between two ticks: a piece of each. A contract sees the ticks, why it went no further,
/// and the pieces.
#[derive(Drop)]
pub struct Window {
    pub(crate) from: u64,
    pub(crate) until: u64,
    pub(crate) stop: Stop,
    pub(crate) pieces: Vec<Piece>,
}

impl Model for Window {
    ghost use Rattle.window_run.specs.Window.{IsWindow, WindowValue};

    ghost Value = { WindowValue };

    ghost view = { λ w. record {
      from = w.from;
      until = w.until;
      stop = w.stop;
      pieces = w.pieces.items;
    } };

    ghost invariant = { λ w. IsWindow (record {
      from = w.from;
      until = w.until;
      stop = w.stop;
      pieces = w.pieces.items;
    }) };
}

impl Window {
    /// A window of pieces that anyone has made: its stop is `End`, and its pieces are these by rising numbers of their
    /// nodes. `None` exactly where two pieces are of one node, or a piece begins or ends at another tick than the window.
    pub fn of(from: u64, until: u64, pieces: Vec<Piece>) -> Option<Window>
        ensures window { IfSome result (IsWindowOf from until pieces.items) }
        ensures none { IsNone result
            ↔ (HasTwoOfOneNode pieces.items ⊎ HasOtherEnds from until pieces.items) }
    {
        if !have_ends(from, until, &pieces) {
            return None;
        }
        let pieces = by_node(pieces);
        if !are_rising(&pieces) {
            return None;
        }
        Some(Window {
            from,
            until,
            stop: Stop::End,
            pieces,
        })
    }

    /// Its first tick.
    pub fn from(&self) -> u64
        ensures { result ≡ self.now.from }
    {
        self.from
    }

    /// Its last tick.
    pub fn until(&self) -> u64
        ensures { result ≡ self.now.until }
    {
        self.until
    }

    /// Why it went no further.
    pub fn stop(&self) -> Stop
        ensures { result ≡ self.now.stop }
    {
        self.stop
    }

    /// Its pieces.
    pub fn pieces(&self) -> &[Piece]
        ensures pieces { result.now ≡ self.now.pieces }
        ensures window { IsWindow self.now }
    {
        self.pieces.as_slice()
    }

    /// Its pieces, and the window no more.
    pub fn into_pieces(self) -> Vec<Piece>
        ensures pieces { result.items ≡ self.pieces }
        ensures window { IsWindow self }
    {
        self.pieces
    }
}

/// Whether each goes from the one tick to the other.
fn have_ends(from: u64, until: u64, pieces: &[Piece]) -> bool
    ensures ends { IsTrue result → All (λ p. (p.from ≡ from) × (p.until ≡ until)) pieces.now }
    ensures shape { IsTrue result → All (λ p. IsPiece p.from p.until p.lines) pieces.now }
    ensures other { IsFalse result → HasOtherEnds from until pieces.now }
{
    pieces.iter().all(|piece| goes(from, until, piece))
}

/// Whether a piece goes from the one tick to the other.
fn goes(from: u64, until: u64, piece: &Piece) -> bool
    ensures ends { IsTrue result ↔ ((piece.now.from ≡ from) × (piece.now.until ≡ until)) }
    ensures shape { IsPiece piece.now.from piece.now.until piece.now.lines }
{
    piece.ramps();
    piece.from() == from && piece.until() == until
}

/// The pieces by rising numbers of their nodes.
fn by_node(mut pieces: Vec<Piece>) -> Vec<Piece>
    ensures same { IsPermutation pieces.items result.items }
    ensures rising { IsNonDecreasingBy (λ p. p.node) result.items }
{
    pieces.sort_unstable_by_key(|piece| piece.node());
    pieces
}

/// Whether each is of a node of a higher number than the one before it.
fn are_rising(pieces: &[Piece]) -> bool
    ensures { result ≡ rising_nodes pieces.now }
{
    let after = pieces.iter().skip(1);
    pieces
        .iter()
        .zip(after)
        .all(|(before, after)| before.node() < after.node())
}
