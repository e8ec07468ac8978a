//! The lines of a wave.

ghost use Rattle.std.specs.Prelude.{◌≡◌, ◌≤◌, ◌<◌, ◌+◌, ◌-◌, ◌^◌, ◌++◌, nat_lt, length, filter, slice_get, string_bytes, IfOk, OnOk, IsTrue, All};
ghost use Rattle.std.specs.List.{flat_map};
ghost use Rattle.std.specs.List.Sorted.{IsNonDecreasingBy};
ghost use Rattle.std.specs.Option.{option_map, option_to_list};
ghost use Rattle.semantics.specs.Text.{line_text, wave_head, wave_text};
ghost use Rattle.semantics.specs.Wave.{wave};
ghost use Rattle.version_book.specs.Version.{is_node};
ghost use Rattle.wave_text.specs.Body.{IsSmall, IsWave};
ghost use Rattle.wave_text.specs.Shown.{begun, from_tick, shown, show_text};

use deck_cards::{Deck, Name};
use semantics::Line;
use std::alloc::{AllocError, Global};

/// `TICK MICROVOLTS NUM RATE DEN`, the microvolts rounded down.
#[tactic(auto, unfolding(semantics::specs::Text::line_text))]
fn line_text(alloc: Global, line: &Line) -> Result<String, AllocError>
    requires { 1 ≤ line.now.den }
    ensures { IfOk result (λ text. string_bytes text ≡ line_text line.now) }
{
    let Line {
        start,
        num,
        rate,
        den,
    } = *line;
    let volts = num.div_euclid(i128::from(den));
    format!(in alloc; "{start} {volts} {num} {rate} {den}\n")
}

/// `wave NODE COUNT`.
#[tactic(auto, unfolding(semantics::specs::Text::wave_head))]
fn wave_head(alloc: Global, node: &Name, count: usize) -> Result<String, AllocError>
    ensures { IfOk result (λ text. string_bytes text ≡ wave_head node.now count) }
{
    format!(in alloc; "wave {node} {count}\n")
}

/// Puts these lines behind the text.
fn push_lines(alloc: Global, text: &mut String, lines: &[Line]) -> Result<(), AllocError>
    requires { All (λ l. 1 ≤ l.den) lines.now }
    ensures { OnOk result (string_bytes text.new
        ≡ string_bytes text.old ++ flat_map line_text lines.now) }
{
    for line in lines {
        text.push_str(&line_text(alloc, line)?)?;
    }
    Ok(())
}

/// Puts `wave NODE COUNT` and these lines behind the text.
#[tactic(auto, unfolding(semantics::specs::Text::wave_text))]
pub fn push_wave(
    alloc: Global,
    text: &mut String,
    node: &Name,
    lines: &[Line],
) -> Result<(), AllocError>
    requires { All (λ l. 1 ≤ l.den) lines.now }
    ensures { OnOk result (string_bytes text.new
        ≡ string_bytes text.old ++ wave_text node.now lines.now) }
{
    text.push_str(&wave_head(alloc, node, lines.len())?)?;
    push_lines(alloc, text, lines)
}

/// A line from a later tick on.
fn from_tick(line: &Line, tick: u64) -> Line
    requires small { IsSmall line.now }
    requires later { line.now.start ≤ tick }
    ensures { result ≡ from_tick tick line.now }
{
    Line {
        start: tick,
        num: line.num + line.rate * i128::from(tick - line.start),
        ..*line
    }
}

/// The lines that have begun at a tick, and those that begin later.
fn split_after(lines: &[Line], tick: u64) -> (&[Line], &[Line])
    requires { IsNonDecreasingBy (λ l. l.start) lines.now }
    ensures begun { result.0.now ≡ begun tick lines.now }
    ensures later { result.1.now ≡ filter (λ l. nat_lt tick l.start) lines.now }
    ensures rising { IsNonDecreasingBy (λ l. l.start) result.1.now }
{
    lines.split_at(lines.partition_point(|line| line.start <= tick))
}

/// The last of the lines that have begun at a tick, from that tick on.
fn line_at(begun: &[Line], tick: u64) -> Option<Line>
    requires small { All IsSmall begun.now }
    requires begun { All (λ l. l.start ≤ tick) begun.now }
    ensures { result ≡ option_map (from_tick tick) (slice_get begun.now (length begun.now - 1)) }
{
    let last = begun.last()?;
    Some(from_tick(last, tick))
}

/// What a range tells of a wave: the line in force at its first tick, from there on, where it begins by the stop, and the
/// lines of the wave behind it.
fn shown(lines: &[Line], stop: u64, range: Option<(u64, u64)>) -> (Option<Line>, &[Line])
    requires { IsWave lines.now }
    ensures { option_to_list result.0 ++ result.1.now ≡ shown stop range lines.now }
{
    let Some((first, last)) = range else {
        return (None, lines);
    };
    if stop < first {
        return (None, &[]);
    }
    let (begun, later) = split_after(lines, first);
    let (told, _) = split_after(later, last);
    (line_at(begun, first), told)
}

/// `wave NODE COUNT` and the first of the lines, where it stands before so many others.
fn wave_front(
    alloc: Global,
    node: &Name,
    first: Option<Line>,
    others: usize,
) -> Result<String, AllocError>
    requires den { All (λ l. 1 ≤ l.den) (option_to_list first) }
    requires few { others < 2 ^ 60 }
    ensures { IfOk result (λ text. string_bytes text
        ≡ wave_head node.now (length (option_to_list first) + others)
        ++ flat_map line_text (option_to_list first)) }
{
    match first {
        None => wave_head(alloc, node, others),
        Some(line) => {
            let mut text = wave_head(alloc, node, 1 + others)?;
            text.push_str(&line_text(alloc, &line)?)?;
            Ok(text)
        }
    }
}

/// What `show` tells of a node: its wave, or the part of it that lies in a range of ticks. `lines` is the node's wave in this
/// deck.
///
/// The lines of the range are found by a binary search.
#[tactic(auto, unfolding(crate::specs::Shown::show_text, semantics::specs::Text::wave_text))]
pub fn wave_of_node(
    alloc: Global,
    deck: &Deck,
    node: &Name,
    lines: &[Line],
    range: Option<(u64, u64)>,
) -> Result<String, AllocError>
    requires node { IsTrue (is_node deck.now node.now) }
    requires wave { lines.now ≡ wave deck.now node.now }
    ensures { IfOk result (λ text. string_bytes text ≡ show_text deck.now node.now range) }
{
    let (first, others) = shown(lines, deck.stop(), range);
    let mut text = wave_front(alloc, node, first, others.len())?;
    push_lines(alloc, &mut text, others)?;
    Ok(text)
}
