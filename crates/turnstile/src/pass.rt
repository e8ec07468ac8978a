//! What a caller takes its turns with.
ghost use Rattle.std.specs.Prelude.{◌≡◌};
ghost use Rattle.turnstile.specs.Steps.{number_of};

use crate::rule::Place;
use crate::turns::Turns;

/// A caller's token for the turns of one turnstile. Proofs know with it the turns that it has seen;
/// all that it stores is its number.
#[derive(Drop)]
pub struct Pass<V: Turns> {
    pub(crate) seat: Place<V>,
    pub(crate) number: u32,
    ghost numbered: { number ≡ number_of seat.me.0 },
}

impl<V: Turns> Pass<V> {
    /// Its place among the passes that were made with the turnstile, from 0.
    pub fn number(&self) -> u32
        ensures { result ≡ self.now.number }
    {
        self.number
    }
}
