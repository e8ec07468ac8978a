//! A card while its lines are read.
ghost use Rattle.std.specs.Prelude.{◌≡◌, ◌+◌, ◌<◌, ◌^◌, ◌++◌, [], length, All, IfOk, OnOk};
ghost use Rattle.deck_lexer.specs.Words.{split_words, lowered};
ghost use Rattle.deck_lexer.specs.Draft.{draft_words, IsDraft};

use crate::word::{Word, push_words};
use std::alloc::{AllocError, Global};

/// The number of a card's line, what its lines so far have in lower case, and the words of that as spans of it.
#[derive(Drop)]
pub(crate) struct Draft {
    pub(crate) line: u32,
    pub(crate) text: Vec<u8>,
    pub(crate) words: Vec<Word>,
}

// Puts the bytes of a text last, in lower case.
fn push_lowered(out: &mut Vec<u8>, text: &[u8]) -> Result<(), AllocError>
    ensures { OnOk result (out.new.items ≡ out.old.items ++ lowered text.now) }
{
    out.reserve(text.len())?;
    for byte in text {
        out.push(byte.to_ascii_lowercase())?;
    }
    Ok(())
}

impl Draft {
    // Puts the words of `code`, in which nothing is a comment, last.
    pub(crate) fn add(&mut self, code: &[u8]) -> Result<(), AllocError>
        requires draft { IsDraft self.old }
        requires ascii { All (λ b. b < 128) code.now }
        requires small { length self.old.text.items + length code.now < 2 ^ 32 }
        ensures draft { OnOk result (IsDraft self.new) }
        ensures line { OnOk result (self.new.line ≡ self.old.line) }
        ensures words { OnOk result (draft_words self.new ≡ draft_words self.old ++ split_words code.now) }
        ensures len { OnOk result (length self.new.text.items ≡ length self.old.text.items + length code.now) }
    {
        let from = self.text.len();
        push_lowered(&mut self.text, code)?;
        push_words(&mut self.words, &self.text, from, self.text.len())
    }

    /// The card of this line whose words are those of `code`, in which nothing is a comment.
    pub(crate) fn of(alloc: Global, line: u32, code: &[u8]) -> Result<Draft, AllocError>
        requires ascii { All (λ b. b < 128) code.now }
        requires small { length code.now < 2 ^ 32 }
        ensures draft { IfOk result IsDraft }
        ensures line { IfOk result (λ draft. draft.line ≡ line) }
        ensures words { IfOk result (λ draft. draft_words draft ≡ split_words code.now) }
        ensures len { IfOk result (λ draft. length draft.text.items ≡ length code.now) }
    {
        let mut draft = Draft {
            line,
            text: Vec::new(alloc),
            words: Vec::new(alloc),
        };
        draft.add(code)?;
        Ok(draft)
    }
}
