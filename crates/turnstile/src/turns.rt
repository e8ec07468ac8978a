//! A value that carries the list of its turns.
ghost use Rattle.std.specs.Prelude.{◌≡◌, ℕ, List, length};

/// A value that carries the list of its turns, and a label that no turn changes.
pub trait Turns {
    /// What one turn adds. As contracts see it, plain data.
    type Entry;

    /// What all passes know of the value. As contracts see it, plain data.
    type Label;

    ghost turns: { Self → List Self.Entry };

    // The number of the pass that made an entry.
    ghost maker: { Self.Entry → ℕ };

    ghost label: { Self → Self.Label };

    /// How many turns the value carries.
    fn count(&self) -> u64
        ensures { result ≡ length (turns self.now) };
}
