//! The lock: its beginning, its passes and its end.
ghost use Rattle.std.specs.Prelude.{◌≡◌, ℕ, ◌+◌, ◌<◌, ◌≤◌, [], ◌∷◌, ◌++◌, Some, None, IfOk, IfErr, vec_len, vec_capacity, slice_get};
ghost use Rattle.turnstile.specs.Steps.{maker_of, pass_of};

use crate::pass::Pass;
use crate::plays::{Look, Merge, Number};
use crate::rule::{Board, Place};
use crate::turns::Turns;
use atomic_table::{Refused, Table};
use std::alloc::{AllocError, AllocFailed, Global};
use std::snapshot::Snapshot;

/// A lock that hands its value to one caller at a time, in the order of their tickets.
pub struct Turnstile<V: Turns> {
    pub(crate) board: Board<V>,
    ghost sized: { (board.shared.table_id.words ≡ 2) × (board.shared.table_id.slots ≡ 1) },
}

impl<V: Turns> Turnstile<V> {
    ghost use Rattle.turnstile.specs.Lists.{Begins, longer};
    ghost use Rattle.turnstile.specs.Passes.{IsOf, IsReady, AreNumbered, seen, number, numbers, label, KeepsOwn};
    ghost use Rattle.turnstile.specs.Making.{AreNew};

    /// The lock over a value without turns, and as many passes as there are seats, 1 to 256. Each pass
    /// has its place in the list as its number. Where memory is wanting, the value comes back.
    pub fn begin(
        alloc: Global,
        value: V,
        seats: u32,
    ) -> Result<(Turnstile<V>, Vec<Pass<V>>), (AllocError, V)>
        requires seats { (0 < seats) × (seats ≤ 256) }
        requires empty { V.turns value ≡ [] }
        ensures count { IfOk result (λ r. vec_len r.1 ≡ seats) }
        ensures passes { IfOk result (λ r. AreNumbered r.0 (V.label value) r.1.items) }
        ensures err { IfErr result (λ r. r.1 ≡ value) }
    {
        let Ok(mut passes) = Vec::with_capacity(alloc, seats as usize) else {
            return Err((AllocError, value));
        };
        match Turnstile::lay(alloc, value) {
            Ok((turnstile, mut maker)) => {
                turnstile.number_others(&mut maker, &mut passes, seats);
                let first = Pass {
                    seat: maker,
                    number: 0,
                };
                passes.push_reserved(first);
                passes.rotate_right(1);
                Ok((turnstile, passes))
            }
            Err(value) => Err((AllocError, value)),
        }
    }

    // The lock with the value in its slot, and the first seat.
    fn lay(alloc: Global, value: V) -> Result<(Turnstile<V>, Place<V>), V>
        requires { V.turns value ≡ [] }
        ensures of { IfOk result (λ r. r.1.table_id ≡ r.0.board.shared.table_id) }
        ensures first { IfOk result (λ r. r.1.me ≡ (maker_of (V.label value) 1, [])) }
        ensures err { IfErr result (λ r. r ≡ value) }
    {
        let about = Snapshot::of(&value);
        let mut slots = Vec::new(alloc);
        if let Err(failed) = slots.push(Some(value)) {
            let AllocFailed { value } = failed;
            slots.destroy_empty();
            let Some(value) = value else { unreachable!() };
            return Err(value);
        }
        match Table::new(alloc, &[0, 0], slots, &about) {
            Ok((board, seat)) => Ok((Turnstile { board }, seat)),
            Err(refused) => {
                let Refused { mut slots } = refused;
                let last = slots.pop();
                slots.destroy_empty();
                let Some(Some(value)) = last else {
                    unreachable!()
                };
                Err(value)
            }
        }
    }

    // Adds the passes with the numbers from 1 on.
    fn number_others(&self, maker: &mut Place<V>, passes: &mut Vec<Pass<V>>, seats: u32)
        requires of { maker.old.table_id ≡ self.now.board.shared.table_id }
        requires maker { (lab : V.Label) × (maker.old.me ≡ (maker_of lab 1, [])) }
        requires room { (passes.old.items ≡ []) × (seats ≤ vec_capacity passes.old) × (0 < seats) }
        ensures same { maker.new.table_id ≡ maker.old.table_id }
        ensures maker { (lab : V.Label) → maker.old.me ≡ (maker_of lab 1, []) → maker.new.me ≡ (maker_of lab seats, []) }
        ensures passes { (lab : V.Label) → maker.old.me ≡ (maker_of lab 1, []) → AreNew self.now lab 1 passes.new.items }
        ensures count { vec_len passes.new + 1 ≡ seats }
        ensures room { vec_capacity passes.new ≡ vec_capacity passes.old }
    {
        for number in 1..seats {
            let seat = self.number(maker);
            passes.push_reserved(Pass { seat, number });
        }
    }

    // A seat with the next number.
    fn number(&self, maker: &mut Place<V>) -> Place<V>
        requires of { maker.old.table_id ≡ self.now.board.shared.table_id }
        requires maker { (lab : V.Label) × (n : ℕ) × (maker.old.me ≡ (maker_of lab n, [])) }
        ensures same { (maker.new.table_id ≡ maker.old.table_id) × (result.table_id ≡ maker.old.table_id) }
        ensures made { (lab : V.Label) (n : ℕ) → maker.old.me ≡ (maker_of lab n, []) → (maker.new.me ≡ (maker_of lab (n + 1), [])) × (result.me ≡ (pass_of lab n, [])) }
    {
        self.board.shared.split_seat::<Number>(maker)
    }

    /// Joins the other pass to the one that is kept, which has then seen what either had seen and keeps
    /// the other's numbers beside its own.
    pub fn join(&self, pass: &mut Pass<V>, other: Pass<V>)
        requires of { IsOf self.now pass.old × IsOf self.now other }
        requires ready { IsReady pass.old × IsReady other }
        ensures of { IsOf self.now pass.new }
        ensures ready { IsReady pass.new }
        ensures number { number pass.new ≡ number pass.old }
        ensures numbers { numbers pass.new ≡ numbers pass.old ++ numbers other }
        ensures label { label pass.new ≡ label pass.old }
        ensures seen { seen pass.new ≡ longer (seen pass.old) (seen other) }
        ensures prefix { Begins V.maker (seen pass.new) (seen pass.old) (numbers pass.old) }
        ensures other_prefix { Begins V.maker (seen pass.new) (seen other) (numbers other) }
        ensures own { KeepsOwn V.maker pass.old pass.new }
        ensures other_own { KeepsOwn V.maker other pass.new }
    {
        let Pass { seat, number: _ } = other;
        self.board.shared.join_seat::<Merge>(&mut pass.seat, seat);
        self.board.shared.load::<Look>(&mut pass.seat, 1);
    }

    /// Takes the lock apart, and hands out what its slot holds: the value, or nothing where a turn was
    /// begun and never done.
    pub fn end(self) -> Option<V> {
        let Turnstile { board } = self;
        let mut closed = board.close();
        let value = closed.take(0);
        closed.free();
        value
    }
}
