//! What a version tells.

ghost use Rattle.std.specs.Prelude.{◌≡◌, string_bytes, IfOk};
ghost use Rattle.wave_text.specs.Happened.{events_text};
ghost use Rattle.wave_text.specs.Shown.{show_text};

use crate::answers::no_node_line;
use crate::event_lines::events_of_deck;
use crate::wave_lines::wave_of_node;
use deck_cards::Name;
use std::alloc::{AllocError, Global};
use version_book::Version;

/// What `show` tells of a node: `wave NODE COUNT` and the lines of its wave, or `no node NODE` where the name is no node of the
/// version's deck. With a range of ticks, both taken in: the line in force at the first tick, from there on, and those that
/// begin later in the range; no line where the first tick is behind the stop.
#[tactic(auto, unfolding(crate::specs::Shown::show_text))]
pub fn wave_text(
    alloc: Global,
    version: &Version,
    node: &Name,
    range: Option<(u64, u64)>,
) -> Result<String, AllocError>
    ensures { IfOk result (λ text. string_bytes text ≡ show_text version.now.deck node.now range) }
{
    match version.wave(node) {
        None => no_node_line(alloc, node),
        Some(lines) => wave_of_node(alloc, version.deck(), node, lines, range),
    }
}

/// What `events` tells: `events COUNT` and the line of each event of the version, or of each whose tick is in the range, its
/// first and last tick taken in.
pub fn events_text(
    alloc: Global,
    version: &Version,
    range: Option<(u64, u64)>,
) -> Result<String, AllocError>
    ensures { IfOk result (λ text. string_bytes text ≡ events_text version.now.deck range) }
{
    events_of_deck(alloc, version.deck(), version.events(), range)
}
