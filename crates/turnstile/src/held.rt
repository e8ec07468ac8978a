//! A turn, from the value's taking until it is given back.
ghost use Rattle.std.specs.Prelude.{◌≡◌, ℕ, [], ◌∷◌, Some, None};

use crate::pass::Pass;
use crate::turns::Turns;
use crate::turnstile::Turnstile;
use std::sync::Wait;

/// The value, in the hands of the caller whose turn it is. `done` ends the turn, and nothing else
/// does.
pub struct Held<'a, 'b, V: Turns> {
    pub(crate) turnstile: &'a Turnstile<V>,
    pub(crate) pass: &'b mut Pass<V>,
    pub(crate) value: V,
}

impl<V: Turns> Turnstile<V> {
    ghost use Rattle.turnstile.specs.Lists.{Begins};
    ghost use Rattle.turnstile.specs.Passes.{IsOf, IsReady, IsSame, HasTurn, seen, numbers, label, found};

    /// Waits for its turn, and takes the value. The value has the pass's label, and its turns begin with
    /// those that the pass has seen, with none after them by a number that the pass has or keeps.
    pub fn turn<'a, 'b, R: Wait>(&'a self, rt: &R, pass: &'b mut Pass<V>) -> Held<'a, 'b, V>
        requires of { IsOf self.now pass.old }
        requires ready { IsReady pass.old }
        ensures pass { result.pass.ghost_name ≡ pass.entry.ghost_name }
        ensures turnstile { result.turnstile.now ≡ self.now }
        ensures same { IsSame pass.old result.pass.now }
        ensures seen { seen result.pass.now ≡ seen pass.old }
        ensures turn { HasTurn result.pass.now × (found result.pass.now ≡ V.turns result.value) }
        ensures label { label pass.old ≡ Some (V.label result.value) }
        ensures begins { Begins V.maker (V.turns result.value) (seen pass.old) (numbers pass.old) }
    {
        let ticket = self.draw(rt, &mut pass.seat);
        let value = self.take(rt, &mut pass.seat, ticket);
        Held {
            turnstile: self,
            pass,
            value,
        }
    }
}

impl<'a, 'b, V: Turns> Held<'a, 'b, V> {
    ghost use Rattle.std.specs.Borrow.{sem};
    ghost use Rattle.turnstile.specs.Lending.{LendsValue};
    ghost use Rattle.turnstile.specs.Lists.{OneMore};
    ghost use Rattle.turnstile.specs.Passes.{IsOf, IsReady, IsSame, HasTurn, OwnGrows, seen, number, label, found};

    /// The value.
    pub fn value(&mut self) -> &mut V
        ensures* writes_back { sem 𝓛 (LendsValue V.row V.Entry.row V.Label.row self.entry result) }
        ensures value { result.now ≡ self.old.value }
    {
        &mut self.value
    }

    /// Gives the value back, and serves the next ticket. The value has its label still, and the turns
    /// that were found or those and one more, which carries the pass's number. The pass has then seen
    /// them all.
    pub fn done(self)
        requires of { IsOf self.turnstile.now self.pass.now }
        requires turn { HasTurn self.pass.now }
        requires label { label self.pass.now ≡ Some (V.label self.value) }
        requires more { OneMore V.maker (number self.pass.now) (found self.pass.now) (V.turns self.value) }
        ensures same { IsSame self.entry.pass.now self.exit.1.0.now }
        ensures ready { IsReady self.exit.1.0.now }
        ensures seen { seen self.exit.1.0.now ≡ V.turns self.entry.value }
        ensures own { OwnGrows V.maker (V.turns self.entry.value) self.entry.pass.now self.exit.1.0.now }
    {
        let Held {
            turnstile,
            pass,
            value,
        } = self;
        turnstile.give(&mut pass.seat, value);
    }
}
