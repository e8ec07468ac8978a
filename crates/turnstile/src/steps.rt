//! The steps of a turn: a ticket is drawn, the value is taken when it is served, and given back.
ghost use Rattle.std.specs.Prelude.{◌≡◌, [], ◌∷◌, None, IfSome, IfNone, MatchOption};
ghost use Rattle.turnstile.specs.Steps.{IsIdle, IsWaiting, Drawn, Taken, MayLeave, HadOwn, at_rest};

use crate::plays::{Draw, Serve, Take};
use crate::rule::Place;
use crate::turns::Turns;
use crate::turnstile::Turnstile;
use std::sync::Wait;

impl<V: Turns> Turnstile<V> {
    // Draws a ticket, if no other pass was faster.
    pub(crate) fn try_draw(&self, seat: &mut Place<V>) -> Option<u64>
        requires { (seat.old.table_id ≡ self.now.board.shared.table_id) × IsIdle seat.old.me }
        ensures same { (seat.new.table_id ≡ seat.old.table_id) × (seat.new.id ≡ seat.old.id) }
        ensures drawn { MatchOption result (seat.new.me ≡ seat.old.me) (λ t. Drawn seat.old.me t seat.new.me) }
    {
        let next = self.board.shared.peek(0);
        if next == u64::MAX {
            return None;
        }
        if self
            .board
            .shared
            .compare_exchange::<Draw>(seat, 0, next, next + 1)
            == next
        {
            Some(next)
        } else {
            None
        }
    }

    // Takes the value, if the ticket is served.
    pub(crate) fn try_take(&self, seat: &mut Place<V>, ticket: u64) -> Option<V>
        requires { (seat.old.table_id ≡ self.now.board.shared.table_id) × IsWaiting ticket seat.old.me }
        ensures same { (seat.new.table_id ≡ seat.old.table_id) × (seat.new.id ≡ seat.old.id) }
        ensures kept { IfNone result (seat.new.me ≡ seat.old.me) }
        ensures taken { IfSome result (λ x. Taken V.turns V.maker V.label seat.old.me ticket x seat.new.me) }
    {
        if self.board.shared.load::<Take>(seat, 1) == ticket {
            self.board.shared.exchange(seat, 0, None)
        } else {
            None
        }
    }

    // Gives the value back, and serves the next ticket.
    pub(crate) fn give(&self, seat: &mut Place<V>, value: V)
        requires of { seat.old.table_id ≡ self.now.board.shared.table_id }
        requires out { seat.old.me.1 ≡ (0, None) ∷ [] }
        requires leaves { MayLeave V.turns V.maker V.label seat.old.me.0 value }
        ensures same { (seat.new.table_id ≡ seat.old.table_id) × (seat.new.id ≡ seat.old.id) }
        ensures served { seat.new.me ≡ (at_rest (V.turns value) seat.old.me.0, []) }
        ensures begins { HadOwn V.maker seat.old.me.0 }
    {
        let old = self.board.shared.exchange(seat, 0, Some(value));
        let None = old else { unreachable!() };
        self.board.shared.fetch_add::<Serve>(seat, 1, 1);
    }

    // Waits for a ticket.
    pub(crate) fn draw<R: Wait>(&self, rt: &R, seat: &mut Place<V>) -> u64
        requires { (seat.old.table_id ≡ self.now.board.shared.table_id) × IsIdle seat.old.me }
        ensures same { (seat.new.table_id ≡ seat.old.table_id) × (seat.new.id ≡ seat.old.id) }
        ensures drawn { Drawn seat.old.me result seat.new.me }
    {
        for _ in rt.forever() {
            if let Some(ticket) = self.try_draw(seat) {
                return ticket;
            }
        }
        unreachable!()
    }

    // Waits until the ticket is served.
    pub(crate) fn take<R: Wait>(&self, rt: &R, seat: &mut Place<V>, ticket: u64) -> V
        requires { (seat.old.table_id ≡ self.now.board.shared.table_id) × IsWaiting ticket seat.old.me }
        ensures same { (seat.new.table_id ≡ seat.old.table_id) × (seat.new.id ≡ seat.old.id) }
        ensures taken { Taken V.turns V.maker V.label seat.old.me ticket result seat.new.me }
    {
        for _ in rt.forever() {
            if let Some(value) = self.try_take(seat, ticket) {
                return value;
            }
        }
        unreachable!()
    }
}
