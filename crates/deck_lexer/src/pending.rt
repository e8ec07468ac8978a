//! The cards of a deck while its lines are read.
ghost use Rattle.std.specs.Prelude.{◌≡◌, ◌+◌, ◌<◌, ◌≤◌, ◌^◌, None, length, drop, All, IfOk, codes, bytes_eq};
ghost use Rattle.deck_lexer.specs.Words.{split_words};
ghost use Rattle.deck_lexer.specs.Pending.{pending_cards, last_len, IsPending, AddsCard, ContinuesCard, ReadsLine};

use crate::card_line::CardLine;
use crate::draft::Draft;
use crate::fault::LexFault;
use crate::line::{begins_with, is_ascii};
use crate::word::{spelled, without_comment};
use std::alloc::{AllocError, Global};

/// The cards of the lines read so far that were not handed out.
#[derive(Drop)]
pub(crate) struct Pending {
    /// A card to which no more words come.
    pub(crate) whole: Option<CardLine>,
    /// The last card, to which the words of a continuation go.
    pub(crate) last: Option<Draft>,
}

/// How the reading goes on after a line.
#[derive(Clone, Copy)]
pub(crate) enum Step {
    /// With the next line.
    Next,
    /// Not at all: this line ends the deck.
    End,
    /// Not at all: this line is at fault.
    Fault(LexFault),
}

// The bytes behind the first, where there is one.
fn behind_first(text: &[u8]) -> &[u8]
    ensures { result.now ≡ drop 1 text.now }
{
    match text {
        [_, rest @ ..] => rest,
        [] => text,
    }
}

// Whether a word of a card is `.end`.
fn is_end(word: &[u8]) -> bool
    ensures { result ≡ bytes_eq word.now (codes ".end") }
{
    matches!(word, [b'.', b'e', b'n', b'd'])
}

impl Pending {
    // The words of `code` begin a card of the line of this number, if there are any.
    fn add_card(&mut self, alloc: Global, code: &[u8], number: u32) -> Result<Step, AllocError>
        requires free { self.old.whole ≡ None }
        requires pending { IsPending self.old }
        requires ascii { All (λ b. b < 128) code.now }
        requires small { length code.now < 2 ^ 32 }
        ensures step { IfOk result (λ step. AddsCard (pending_cards self.old) number (split_words code.now) step (pending_cards self.new)) }
        ensures pending { IsPending self.new }
        ensures len { last_len self.new ≤ last_len self.old + length code.now }
    {
        let draft = Draft::of(alloc, number, code)?;
        if draft.words.is_empty() {
            return Ok(Step::Next);
        }
        if is_end(spelled(&draft.text, draft.words[0])) {
            return Ok(Step::End);
        }
        if let Some(last) = self.last.replace(draft) {
            self.whole = Some(CardLine::of_draft(last));
        }
        Ok(Step::Next)
    }

    // The words of `code`, which are of the line of this number, go to the last card. Want of memory loses that card.
    fn continue_card(&mut self, code: &[u8], number: u32) -> Result<Step, AllocError>
        requires free { self.old.whole ≡ None }
        requires pending { IsPending self.old }
        requires ascii { All (λ b. b < 128) code.now }
        requires small { last_len self.old + length code.now < 2 ^ 32 }
        ensures step { IfOk result (λ step. ContinuesCard (pending_cards self.old) number (split_words code.now) step (pending_cards self.new)) }
        ensures pending { IsPending self.new }
        ensures len { last_len self.new ≤ last_len self.old + length code.now }
    {
        let Some(mut last) = self.last.take() else {
            return Ok(Step::Fault(LexFault::ContinuesNothing(number)));
        };
        last.add(code)?;
        self.last = Some(last);
        Ok(Step::Next)
    }

    /// Reads the line of this number.
    pub(crate) fn read_line(
        &mut self,
        alloc: Global,
        line: &[u8],
        number: u32,
    ) -> Result<Step, AllocError>
        requires free { self.old.whole ≡ None }
        requires pending { IsPending self.old }
        requires small { last_len self.old + length line.now < 2 ^ 32 }
        ensures step { IfOk result (λ step. ReadsLine (pending_cards self.old) (number, line.now) step (pending_cards self.new)) }
        ensures pending { IsPending self.new }
        ensures len { last_len self.new ≤ last_len self.old + length line.now }
    {
        if number == 1 || begins_with(line, b'*') {
            return Ok(Step::Next);
        }
        if !is_ascii(line) {
            return Ok(Step::Fault(LexFault::NotAscii(number)));
        }
        let code = without_comment(line);
        if begins_with(line, b'+') {
            self.continue_card(behind_first(code), number)
        } else {
            self.add_card(alloc, code, number)
        }
    }
}
