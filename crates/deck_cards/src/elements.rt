//! What an element's card says of its name and its ends, as functions.

ghost use Rattle.std.specs.Prelude.{◌≡◌};
ghost use Rattle.semantics.specs.Deck as deck;
ghost use Rattle.semantics.specs.Valid as valid;

use semantics::{Element, Name};

/// The name of an element.
pub fn name_of(element: &Element) -> &Name
    ensures { result.now ≡ deck.name_of element.now }
{
    element.name()
}

/// Whether the element stands between a node and ground, where it is a capacitor or a source.
pub fn is_grounded(element: &Element) -> bool
    ensures { result ≡ valid.is_grounded element.now }
{
    element.is_grounded()
}
