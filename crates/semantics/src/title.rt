ghost use Rattle.std.specs.Prelude.{◌≡◌};

use std::marker::Model;

/// The first line of a deck, kept as it was read. A contract sees it as its bytes.
#[derive(Drop)]
pub struct Title {
    line: Vec<u8>,
}

impl Model for Title {
    ghost use Rattle.std.specs.Prelude.{ℕ, List};

    ghost Value = { List ℕ };

    ghost view = { λ t. t.line.items };
}

impl Title {
    /// The title of these bytes.
    pub fn of(bytes: Vec<u8>) -> Title
        ensures { result ≡ bytes.items }
    {
        Title { line: bytes }
    }

    /// Its bytes.
    pub fn bytes(&self) -> &[u8]
        ensures { result.now ≡ self.now }
    {
        self.line.as_slice()
    }
}
