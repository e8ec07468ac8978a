//! What the cards of a deck have said so far, and what one more card makes of it.

ghost use Rattle.std.specs.Prelude.{◌≡◌, None};
ghost use Rattle.deck_reader.specs.Numbers.{Gives};
ghost use Rattle.deck_reader.specs.Told.{nothing, is_grain, grain_after, with_options, is_stop, span_after, with_tran, is_output, is_options, table_told, model_told, initial_told, grain_told, span_told, circuit_told, with_words};

use crate::circuit::Circuit;
use crate::element::element;
use crate::initial::Voltages;
use crate::options::options;
use crate::parts::Parts;
use crate::tran::{Span, tran};
use crate::why::DeckWhy;
use crate::words::{Word, Words};
use deck_cards::{Which, limits};
use deck_lexer::CardLine;
use std::alloc::Global;

/// What the cards of a deck have said so far.
#[derive(Drop)]
pub struct Told {
    /// The elements, each with the line of its card.
    pub circuit: Circuit,
    /// The models and tables, each with its name.
    pub parts: Parts,
    /// The initial voltages, each with its node; the last one of a node holds.
    pub initial: Voltages,
    /// The grain in microvolts.
    pub grain: u32,
    /// The stop tick, and whether there is `uic`, where a `.tran` stands before.
    pub span: Option<(u64, bool)>,
}

/// Whether this is a grain of a deck: even, and from 2 µV to 1 V.
fn is_grain(volts: &i64) -> bool
    ensures { result ≡ is_grain volts.now }
{
    0 <= *volts && limits::is_some_grain(volts.unsigned_abs())
}

/// Whether this is a stop tick of a deck: not below 0, and at most 10 ms.
fn is_stop(tick: &i64) -> bool
    ensures { result ≡ is_stop tick.now }
{
    0 <= *tick && limits::is_short(tick.unsigned_abs())
}

/// The grain after a card that says this one, or none.
fn grain_after(
    alloc: Global,
    before: u32,
    word: &Word<'_>,
    said: &Option<i64>,
) -> Result<u32, DeckWhy>
    ensures { Gives result (grain_after before word.now said.now) }
{
    let Some(volts) = said else {
        return Ok(before);
    };
    if !is_grain(volts) {
        return Err(DeckWhy::Limit(Which::Grain, word.to_name(alloc)?));
    }
    Ok(*volts as u32)
}

/// The grain after the words behind `.options`.
#[tactic(auto, unfolding(crate::specs::Told::with_options))]
fn with_options(
    alloc: Global,
    before: u32,
    word: &Word<'_>,
    words: &mut Words<'_>,
) -> Result<u32, DeckWhy>
    ensures { Gives result (with_options before word.now words.old) }
{
    let said = options(alloc, words)?;
    grain_after(alloc, before, word, &said)
}

/// The stop tick after a card that says this one.
fn span_after(
    alloc: Global,
    before: &Option<(u64, bool)>,
    word: &Word<'_>,
    span: &Span,
) -> Result<Option<(u64, bool)>, DeckWhy>
    ensures { Gives result (span_after before.now word.now span.now) }
{
    if before.is_some() {
        return Err(DeckWhy::SecondTran);
    }
    if !is_stop(&span.stop) {
        return Err(DeckWhy::Limit(Which::Seconds, word.to_name(alloc)?));
    }
    Ok(Some((span.stop.unsigned_abs(), span.uic)))
}

/// The stop tick after the words behind `.tran`.
#[tactic(auto, unfolding(crate::specs::Told::with_tran))]
fn with_tran(
    alloc: Global,
    before: &Option<(u64, bool)>,
    word: &Word<'_>,
    words: &mut Words<'_>,
) -> Result<Option<(u64, bool)>, DeckWhy>
    ensures { Gives result (with_tran before.now word.now words.old) }
{
    let span = tran(alloc, words)?;
    span_after(alloc, before, word, &span)
}

/// Whether the card says what to print or plot, which has no effect.
fn is_output(word: &Word<'_>) -> bool
    ensures { result ≡ is_output word.now }
{
    word.is(".print") || word.is(".plot") || word.is(".probe") || word.is(".save")
}

/// Whether this is the first word of a card of options.
fn is_options(word: &Word<'_>) -> bool
    ensures { result ≡ is_options word.now }
{
    word.is(".options") || word.is(".option")
}

impl Told {
    /// No card has said anything: the grain is 50 mV.
    pub fn new(alloc: Global) -> Told
        ensures { result ≡ nothing }
    {
        Told {
            circuit: Circuit::new(alloc),
            parts: Parts::new(alloc),
            initial: Voltages::new(alloc),
            grain: 50_000,
            span: None,
        }
    }

    /// What the words behind `.table` make of it.
    fn with_table(self, alloc: Global, words: &mut Words<'_>) -> Result<Told, DeckWhy>
        ensures { Gives result (table_told self words.old) }
    {
        let parts = self.parts.with_table(alloc, words)?;
        Ok(Told { parts, ..self })
    }

    /// What the words behind `.model` make of it.
    fn with_model(self, alloc: Global, words: &mut Words<'_>) -> Result<Told, DeckWhy>
        ensures { Gives result (model_told self words.old) }
    {
        let parts = self.parts.with_model(alloc, words)?;
        Ok(Told { parts, ..self })
    }

    /// What the words behind `.ic` make of it.
    fn with_initial(self, alloc: Global, words: &mut Words<'_>) -> Result<Told, DeckWhy>
        ensures { Gives result (initial_told self words.old) }
    {
        let initial = self.initial.with_initial(alloc, words)?;
        Ok(Told { initial, ..self })
    }

    /// What the words behind `.options` make of it.
    fn with_options(
        self,
        alloc: Global,
        word: &Word<'_>,
        words: &mut Words<'_>,
    ) -> Result<Told, DeckWhy>
        ensures { Gives result (grain_told self word.now words.old) }
    {
        let grain = with_options(alloc, self.grain, word, words)?;
        Ok(Told { grain, ..self })
    }

    /// What the words behind `.tran` make of it.
    fn with_tran(
        self,
        alloc: Global,
        word: &Word<'_>,
        words: &mut Words<'_>,
    ) -> Result<Told, DeckWhy>
        ensures { Gives result (span_told self word.now words.old) }
    {
        let span = with_tran(alloc, &self.span, word, words)?;
        Ok(Told { span, ..self })
    }

    /// What the card of an element at this line makes of it.
    fn with_element(self, alloc: Global, line: u32, words: &mut Words<'_>) -> Result<Told, DeckWhy>
        ensures { Gives result (circuit_told self line words.old) }
    {
        let element = element(alloc, words)?;
        let circuit = self.circuit.with_element(line, element)?;
        Ok(Told { circuit, ..self })
    }

    /// What one more card makes of it.
    #[tactic(auto, unfolding(crate::specs::Told::with_words))]
    pub fn with_card(self, alloc: Global, card: &CardLine) -> Result<Told, DeckWhy>
        ensures { Gives result (with_words self card.now.line card.now.words) }
    {
        let mut words = Words::of(card, 0);
        let word = words.next().ok_or(DeckWhy::WrongWords)?;
        if word.is(".table") {
            return self.with_table(alloc, &mut words);
        }
        if word.is(".model") {
            return self.with_model(alloc, &mut words);
        }
        if word.is(".ic") {
            return self.with_initial(alloc, &mut words);
        }
        if is_options(&word) {
            return self.with_options(alloc, &word, &mut words);
        }
        if word.is(".tran") {
            return self.with_tran(alloc, &word, &mut words);
        }
        if is_output(&word) {
            return Ok(self);
        }
        self.with_element(alloc, card.line(), &mut Words::of(card, 0))
    }
}
