ghost use Rattle.std.specs.Prelude.{◌≡◌, ◌+◌, ◌-◌, ◌^◌, ◌<◌, min};

use std::marker::Model;
use std::sync::ledger::{Book, Ledger, Share};

/// How many ramps were made. A contract sees it as that number, which has no bytes and no end.
#[derive(Drop)]
pub struct Steps<L: Ledger> {
    book: Book<L>,
    share: Share<L>,
    made: u64,
    ghost can_count: { 0 < share.parts },
    ghost made_is: { made ≡ min book.total (2 ^ 64 - 1) },
}

impl<L: Ledger> Model for Steps<L> {
    ghost use Rattle.std.specs.Prelude.{ℕ};

    ghost Value = { ℕ };

    ghost view = { λ s. s.book.total };
}

impl<L: Ledger> Steps<L> {
    /// A count on this book, which must stand at 0, by a share with at least one part: what `Blank::open` gives.
    pub fn of(book: Book<L>, share: Share<L>) -> Steps<L>
        requires at_zero { book.total ≡ 0 }
        requires can_count { 0 < share.parts }
        ensures { result ≡ 0 }
    {
        Steps {
            book,
            share,
            made: 0,
        }
    }

    /// The count; where it is above 2^64 - 1, that number.
    pub fn made(&self) -> u64
        ensures { result ≡ min self.now (2 ^ 64 - 1) }
    {
        self.made
    }

    /// Counts one more.
    pub(crate) fn count(&mut self)
        ensures { self.new ≡ self.old + 1 }
    {
        let Steps { book, share, made } = self;
        book.add(share, 1);
        *made = made.saturating_add(1);
    }
}
