ghost use Rattle.std.specs.Prelude.{◌≡◌, ◌<◌, ◌++◌, ◌∷◌, [], Some, length, slice_get, IfOk};
ghost use Rattle.deck_reader.specs.Circuit.{elements_of};

use semantics::Element;
use std::alloc::{AllocError, Global};
use std::marker::Model;

/// Elements in the order of their cards, each with the line of its card.
#[derive(Drop)]
pub struct Placed {
    /// The line of each element, at the element's place.
    lines: Vec<u32>,
    elements: Vec<Element>,
}

impl Model for Placed {
    ghost use Rattle.std.specs.Prelude.{◌≡◌, ℕ, List, length, zip};
    ghost use Rattle.semantics.specs.declared.element.Element.{Element};

    ghost Value = { List (ℕ × Element) };

    ghost view = { λ p. zip p.lines.items p.elements.items };

    ghost invariant = { λ p. length p.lines.items ≡ length p.elements.items };
}

impl Placed {
    /// No element.
    pub fn new(alloc: Global) -> Placed
        ensures { result ≡ [] }
    {
        Placed {
            lines: Vec::new(alloc),
            elements: Vec::new(alloc),
        }
    }

    /// These elements and one more, with its line.
    pub fn with(self, line: u32, element: Element) -> Result<Placed, AllocError>
        ensures { IfOk result (λ placed. placed ≡ self ++ (line, element) ∷ []) }
    {
        let Placed {
            mut lines,
            mut elements,
        } = self;
        lines.push(line)?;
        elements.push(element)?;
        Ok(Placed { lines, elements })
    }

    /// How many there are.
    pub fn len(&self) -> usize
        ensures { result ≡ length self.now }
    {
        self.elements.len()
    }

    /// The element at a place, and its line.
    pub fn at(&self, place: usize) -> (u32, &Element)
        requires { place < length self.now }
        ensures { slice_get self.now place ≡ Some (result.0, result.1.now) }
    {
        (self.lines[place], &self.elements[place])
    }

    /// The elements without their lines.
    pub fn into_elements(self) -> Vec<Element>
        ensures { result.items ≡ elements_of self }
    {
        self.elements
    }
}
