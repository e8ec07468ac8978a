//! The pieces of a window.

ghost use Rattle.std.specs.Prelude.{◌≡◌, ◌<◌, ℕ, length, map, All, IfOk};
ghost use Rattle.histories.specs.Piece.{IsPiece};
ghost use Rattle.window_run.specs.Pieces.{piece_of};
ghost use Rattle.window_run.specs.Window.{AreDifferent, piece_value};

use histories::{Piece, Ramp};
use std::alloc::{AllocError, Global};
use std::mem;

/// The pieces of these nodes, in their order, from the ramps that each number has. The ramps are moved.
pub(crate) fn hand_out(
    alloc: Global,
    nodes: &[u32],
    mut ramps: Vec<Vec<Ramp>>,
    from: u64,
    until: u64,
) -> Result<Vec<Piece>, AllocError>
    requires different { AreDifferent nodes.now }
    requires inside { All (λ i. i < length ramps.items) nodes.now }
    requires shape { All (λ i. IsPiece from until (piece_of (map (λ v. v.items) ramps.items) i)) nodes.now }
    ensures { IfOk result (λ pieces. pieces.items
        ≡ map (piece_value from until (map (λ v. v.items) ramps.items)) nodes.now) }
{
    let mut pieces = Vec::new(alloc);
    for node in nodes {
        let own = take(alloc, &mut ramps, *node as usize);
        pieces.push(piece(*node, from, until, own))?;
    }
    Ok(pieces)
}

/// Takes the ramps of a number, and leaves it none.
fn take(alloc: Global, ramps: &mut Vec<Vec<Ramp>>, place: usize) -> Vec<Ramp>
    requires { place < length ramps.old.items }
    ensures taken { result.items ≡ piece_of (map (λ v. v.items) ramps.old.items) place }
    ensures count { length ramps.new.items ≡ length ramps.old.items }
    ensures others { (i : ℕ) → (i ≡ place → ⊥)
        → piece_of (map (λ v. v.items) ramps.new.items) i
        ≡ piece_of (map (λ v. v.items) ramps.old.items) i }
{
    mem::replace(&mut ramps[place], Vec::new(alloc))
}

/// The piece of a node from ramps in shape.
fn piece(node: u32, from: u64, until: u64, ramps: Vec<Ramp>) -> Piece
    requires { IsPiece from until ramps.items }
    ensures { result ≡ record {
      node = node;
      from = from;
      until = until;
      lines = ramps.items;
    } }
{
    match Piece::of(node, from, until, ramps) {
        Ok(piece) => piece,
        Err(_) => unreachable!(),
    }
}
