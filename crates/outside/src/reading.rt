ghost use Rattle.std.specs.Prelude.{◌≡◌, ◌<◌, ◌≤◌, length, Contains, IfOk, IfSome, IsErrOf};
ghost use Rattle.outside.specs.Causes.{Rose};
ghost use Rattle.outside.specs.Content.{SameBytes, SameElsewhere};
ghost use Rattle.outside.specs.declared.reading.ReadRefusal.TheVariants.{Failed as CallFailed, Memory};

use crate::{Failed, Shelf};
use std::alloc::{AllocError, Global};
use thiserror::Error;

/// How many bytes a file may have that is read whole.
pub const READ_LIMIT: usize = 16_777_216;

/// How many bytes are asked for at a time.
const PIECE: usize = 8192;

/// Why a file was not read whole.
#[derive(Clone, Copy, Debug, PartialEq, Eq, Error)]
pub enum ReadRefusal {
    /// A call of the shelf failed.
    #[error("the file could not be read")]
    Failed,
    /// There are more than `READ_LIMIT` bytes.
    #[error("the file has more than 16777216 bytes")]
    TooLong,
    #[error("out of memory")]
    Memory,
}

impl From<Failed> for ReadRefusal {
    ghost from_gives = { λ _ refusal. refusal ≡ CallFailed };

    fn from(_: Failed) -> Self {
        ReadRefusal::Failed
    }
}

impl From<AllocError> for ReadRefusal {
    ghost from_gives = { λ _ refusal. refusal ≡ Memory };

    fn from(_: AllocError) -> Self {
        ReadRefusal::Memory
    }
}

/// All bytes of the name.
///
/// Where the shelf tells the bytes and no call of it fails, the answer is `TooLong` exactly where there are more
/// than `READ_LIMIT` of them. No more is read once more than that were taken.
pub fn read_whole<S: Shelf>(
    alloc: Global,
    shelf: &mut S,
    name: &str,
) -> Result<Vec<u8>, ReadRefusal>
    requires { Contains (S.names shelf.old) name.now }

    ensures whole { IfOk result (λ v. IfSome (S.bytes shelf.old name.now) (λ told. v.items ≡ told)) }
    ensures within { IfOk result (λ v. length v.items ≤ READ_LIMIT) }
    ensures too_long { IsErrOf result ReadRefusal.TooLong → IfSome (S.bytes shelf.old name.now) (λ told. READ_LIMIT < length told) }
    ensures failed { IsErrOf result ReadRefusal.Failed → Rose (S.faults shelf.old name.now) (S.faults shelf.new name.now) }

    // What the call leaves.
    ensures names { S.names shelf.new ≡ S.names shelf.old }
    ensures bytes { SameBytes (S.bytes shelf.old) (S.bytes shelf.new) }
    ensures later { S.faults shelf.old name.now ≤ S.faults shelf.new name.now }
    ensures others { SameElsewhere name.now (S.faults shelf.old) (S.faults shelf.new) }
{
    let mut bytes = Vec::new(alloc);
    let mut piece = [0; PIECE];
    while bytes.len() <= READ_LIMIT {
        let at = bytes.len() as u64;
        let count = shelf.read(name, at, &mut piece)?;
        if count == 0 {
            return Ok(bytes);
        }
        bytes.extend_from_slice(&piece[..count])?;
    }
    Err(ReadRefusal::TooLong)
}
