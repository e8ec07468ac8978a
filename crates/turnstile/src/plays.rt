//! What each step on the table tells.
ghost use Rattle.turnstile.specs.Steps.{Draws, Takes, Serves, Looks, counted, newcomer, merged};
ghost use Rattle.turnstile.specs.declared.view.View.TheVariants.{Spent};

use crate::turns::Turns;
use crate::view::View;
use atomic_table::{Join, Play, Split};

pub(crate) struct Draw;

impl<V, E, L> Play<Option<V>, View<E, L>> for Draw {
    ghost then = { Draws };
}

pub(crate) struct Take;

impl<V: Turns> Play<Option<V>, View<V::Entry, V::Label>> for Take {
    ghost then = { Takes V.turns V.maker V.label };
}

pub(crate) struct Serve;

impl<V: Turns> Play<Option<V>, View<V::Entry, V::Label>> for Serve {
    ghost then = { Serves V.turns V.maker V.label };
}

pub(crate) struct Look;

impl<V: Turns> Play<Option<V>, View<V::Entry, V::Label>> for Look {
    ghost then = { Looks V.maker };
}

pub(crate) struct Number;

impl<E, L> Split<View<E, L>> for Number {
    ghost left = { counted };

    ghost right = { newcomer };
}

pub(crate) struct Merge;

impl<E, L> Join<View<E, L>> for Merge {
    ghost both = { merged };

    ghost spent = { Spent };
}
