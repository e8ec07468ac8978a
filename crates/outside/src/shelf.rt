ghost use Rattle.std.specs.Prelude.{◌≡◌, ℕ, List, Option, Contains, IfOk};
ghost use Rattle.std.specs.Io.{ReadsAtMost};
ghost use Rattle.outside.specs.Causes.{HasCause};
ghost use Rattle.outside.specs.Content.{GivesFrom, GivesNoneOnlyAtEnd, SameBytes, SameElsewhere};

use crate::Failed;

/// A list of names that never changes, each with its bytes.
pub trait Shelf {
    /// The names.
    ghost names: { Self → List (List ℕ) };

    /// The bytes of a name, where the shelf tells them.
    ghost bytes: { Self → List ℕ → Option (List ℕ) };

    /// How many faults reading a name has met. It never falls.
    ghost faults: { Self → List ℕ → ℕ };

    /// Puts bytes of the name, from the place `at` on, into the front of `buf`, and says how many.
    /// A `buf` that is not empty gets none only at the end of the name's bytes.
    fn read(&mut self, name: &str, at: u64, buf: &mut [u8]) -> Result<usize, Failed>
        requires { Contains (names self.old) name.now }

        ensures bound { ReadsAtMost result buf.new }
        ensures given { IfOk result (λ n. GivesFrom (bytes self.old name.now) at n buf.new) }
        ensures end { IfOk result (λ n. GivesNoneOnlyAtEnd (bytes self.old name.now) at n buf.new) }

        ensures names { names self.new ≡ names self.old }
        ensures bytes { SameBytes (bytes self.old) (bytes self.new) }
        ensures others { SameElsewhere name.now (faults self.old) (faults self.new) }

        // The count of the name does not fall, and `Failed` comes only where it rose.
        ensures cause { HasCause (faults self.old name.now) (faults self.new name.now) result };
}
