//! What a deck knows of its nodes, and the first free node that lacks something.

ghost use Rattle.std.specs.Prelude.{◌≡◌, ◌^◌, ◌<◌, ◌&&◌, not, nat_lt, pos, int_lt, length, is_none, position, IfSome};
ghost use Rattle.std.specs.List.{zip};
ghost use Rattle.std.specs.Ordering.{int_eq};
ghost use Rattle.semantics.specs.Deck.{look_up};

use indexmap::IndexMap;
use semantics::Name;

/// What a deck knows of one of its nodes, so that no call looks through its elements.
#[derive(Clone, Copy)]
pub struct NodeFacts {
    /// The place of the first source that drives the node.
    pub source: Option<usize>,
    /// The sum of its capacitors in attofarads.
    pub farads: i128,
}

/// The first free node that has no capacitance.
pub fn first_uncapped(facts: &[NodeFacts]) -> Option<usize>
    ensures { result ≡ position (λ f. is_none f.source && int_eq f.farads (pos 0)) facts.now }
{
    facts
        .iter()
        .position(|node| node.source.is_none() && node.farads == 0)
}

/// Whether no voltage is given to a name.
#[tactic(auto, using(crate::proofs::Once::missing_is))]
fn lacks_voltage(name: &Name, initial: &IndexMap<Name, i64>) -> bool
    ensures { result ≡ is_none (look_up name.now initial.now.entries) }
{
    !initial.contains_key(name)
}

/// The first free node whose name has no initial voltage, where `uic` does not stand for it.
pub fn first_without_voltage(
    facts: &[NodeFacts],
    names: &[Name],
    uic: bool,
    initial: &IndexMap<Name, i64>,
) -> Option<usize>
    ensures place { result ≡ position (λ f. is_none f.0.source && (not uic && is_none (look_up f.1 initial.now.entries))) (zip facts.now names.now) }
    ensures bound { IfSome result (λ place. place < length facts.now) }
{
    facts.iter().zip(names).position(|(node, name)| {
        node.source.is_none() && (!uic && lacks_voltage(name, initial))
    })
}

/// The first free node that has more than 1 µF.
pub fn first_over_capped(facts: &[NodeFacts]) -> Option<usize>
    ensures { result ≡ position (λ f. is_none f.source && int_lt (pos (10 ^ 12)) f.farads) facts.now }
{
    facts.iter().position(|node| node.source.is_none() && 1_000_000_000_000 < node.farads)
}

/// The first free node at which more than 1,000 ends stand that carry current, by these counts.
pub fn first_crowded(facts: &[NodeFacts], terminals: &[u32]) -> Option<usize>
    ensures place { result ≡ position (λ f. is_none f.0.source && nat_lt 1000 f.1) (zip facts.now terminals.now) }
    ensures bound { IfSome result (λ place. place < length facts.now) }
{
    facts
        .iter()
        .zip(terminals)
        .position(|(node, count)| node.source.is_none() && 1_000 < *count)
}
