//! The rule of the table that lies under a turnstile.
ghost use Rattle.std.specs.Prelude.{◌≡◌};

use crate::turns::Turns;
use crate::view::View;
use atomic_table::{Seat, Table, TableRule};
use std::alloc::Global;
use std::marker::PhantomData;
use std::snapshot::Snapshot;

/// Tickets are served in turn, and the value is in the slot or with the seat whose ticket is served.
pub struct InTurn<V> {
    marker: PhantomData<V>,
}

impl<V: Turns> TableRule<Option<V>, View<V::Entry, V::Label>, Snapshot<V>> for InTurn<V> {
    ghost use Rattle.turnstile.specs.Rule.{Ruled};
    ghost use Rattle.turnstile.specs.Steps.{opener};

    ghost holds = { λ _. Ruled V.turns V.maker V.label };

    ghost first = { λ key. opener (V.label key.value) };
}

/// A seat of the table.
pub type Place<V> = Seat<Option<V>, View<<V as Turns>::Entry, <V as Turns>::Label>>;

/// The table: the tickets drawn, the turns finished, and the value.
pub type Board<V> = Table<
    Option<V>,
    View<<V as Turns>::Entry, <V as Turns>::Label>,
    Snapshot<V>,
    InTurn<V>,
    Global,
>;
