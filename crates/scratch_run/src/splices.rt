ghost use Rattle.std.specs.Prelude.{OnOk};
ghost use Rattle.std.specs.List.{All};
ghost use Rattle.scratch_run.specs.Splices.{HasPut, Takes};

use histories::{Histories, Piece};
use std::alloc::AllocError;

/// Puts pieces into a record.
pub(crate) fn splice_pieces(mut pieces: Vec<Piece>, past: &mut Histories) -> Result<(), AllocError>
    requires { All (Takes past.old) pieces.items }
    ensures { OnOk result (HasPut past.old past.new pieces.items) }
{
    while let Some(piece) = pieces.pop() {
        past.splice(piece)?;
    }
    Ok(())
}
