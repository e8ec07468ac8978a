//! How far the lines of a text are read.
ghost use Rattle.std.specs.Prelude.{◌≡◌, ◌⊎◌, ◌<◌, ◌^◌, None, length, IfOk, OnOk};
ghost use Rattle.deck_lexer.specs.Left.{Hands};
ghost use Rattle.deck_lexer.specs.Scan.{scan_left, work_left, IsScan};

use crate::card_line::CardLine;
use crate::fault::LexFault;
use crate::lexer::Next;
use crate::line::line_end;
use crate::pending::{Pending, Step};
use std::alloc::{AllocError, Global};

/// How far the lines of a text are read, and the cards that were not handed out.
#[derive(Drop)]
pub(crate) struct Scan {
    /// The place of the next line.
    pub(crate) start: usize,
    /// How many lines stand before it.
    pub(crate) number: u32,
    pub(crate) pending: Pending,
    /// How the deck ends, where that is read: the number of the line that ends it, or what is wrong with it.
    pub(crate) over: Option<Result<u32, LexFault>>,
}

impl Scan {
    // Reads the next line, if there is one.
    fn read_line(&mut self, alloc: Global, text: &[u8]) -> Result<(), AllocError>
        requires free { self.old.pending.whole ≡ None }
        requires over { self.old.over ≡ None }
        requires scan { IsScan text.now self.old }
        ensures left { OnOk result (scan_left text.now self.new ≡ scan_left text.now self.old) }
        ensures scan { IsScan text.now self.new }
        ensures further { OnOk result (work_left text.now self.new < work_left text.now self.old) }
    {
        if self.start >= text.len() {
            self.over = Some(Err(LexFault::NoEnd(self.number)));
            return Ok(());
        }
        let end = line_end(text, self.start);
        let line = &text[self.start..end];
        self.start = end + 1;
        self.number += 1;
        match self.pending.read_line(alloc, line, self.number)? {
            Step::Next => {}
            Step::End => self.over = Some(Ok(self.number)),
            Step::Fault(fault) => self.over = Some(Err(fault)),
        }
        Ok(())
    }

    /// The next card or, behind the last, how the deck ends.
    pub(crate) fn next(&mut self, alloc: Global, text: &[u8]) -> Result<Next, AllocError>
        requires { IsScan text.now self.old }
        ensures next { IfOk result (λ next. Hands (scan_left text.now self.old) next (scan_left text.now self.new)) }
        ensures scan { IsScan text.now self.new }
    {
        loop {
            if let Some(card) = self.pending.whole.take() {
                return Ok(Next::Card(card));
            }
            if let Some(over) = self.over {
                return Ok(match self.pending.last.take() {
                    Some(last) => Next::Card(CardLine::of_draft(last)),
                    None => Next::Over(over),
                });
            }
            self.read_line(alloc, text)?;
        }
    }
}
