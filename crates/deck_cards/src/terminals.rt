//! How many ends that carry current stand at each node of a deck.

ghost use Rattle.std.specs.Prelude.{◌≡◌, ◌+◌, ◌^◌, ◌<◌, ◌≤◌, true, map, length, take, IfOk};
ghost use Rattle.std.specs.List.{All};
ghost use Rattle.semantics.specs.Valid.{differ};
ghost use Rattle.deck_cards.specs.Facts.{ChangesAt, terminals_of};

use indexmap::IndexSet;
use semantics::{Element, Name};
use std::alloc::{AllocError, Global};

/// Counts an end that carries current, where the name is a node.
fn count_end(names: &IndexSet<Name>, counts: &mut [u32], name: &Name)
    requires differ { differ names.now.keys ≡ true }
    requires size { length counts.old ≡ length names.now.keys }
    requires room { All (λ count. count + 1 < 2 ^ 32) counts.old }
    ensures { ChangesAt names.now.keys name.now (λ count. count + 1) counts.old counts.new }
{
    if let Some(place) = names.get_index_of(name) {
        counts[place] += 1;
    }
}

/// Counts the ends that carry current of the element at this place.
fn count_element(names: &IndexSet<Name>, counts: &mut [u32], elements: &[Element], place: usize)
    requires differ { differ names.now.keys ≡ true }
    requires within { place < length elements.now }
    requires few { length elements.now ≤ 100000 }
    requires before { counts.old ≡ map (λ n. terminals_of n (take place elements.now)) names.now.keys }
    ensures { counts.new ≡ map (λ n. terminals_of n (take (place + 1) elements.now)) names.now.keys }
{
    match &elements[place] {
        Element::Resistor { first, second, .. } => {
            count_end(names, counts, first);
            count_end(names, counts, second);
        }
        Element::Mos { drain, source, .. } => {
            count_end(names, counts, drain);
            count_end(names, counts, source);
        }
        Element::Capacitor { .. } => {}
        Element::Source { .. } => {}
    }
}

/// How many ends that carry current these elements have at each node.
pub fn counts_of(
    alloc: Global,
    names: &IndexSet<Name>,
    elements: &[Element],
) -> Result<Vec<u32>, AllocError>
    requires differ { differ names.now.keys ≡ true }
    requires few { length elements.now ≤ 100000 }
    ensures { IfOk result (λ counts. counts.items ≡ map (λ n. terminals_of n elements.now) names.now.keys) }
{
    let mut counts = vec![in alloc; 0; names.len()]?;
    for place in 0..elements.len() {
        count_element(names, &mut counts, elements, place);
    }
    Ok(counts)
}
