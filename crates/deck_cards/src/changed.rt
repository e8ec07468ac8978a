//! Elements with another value.

ghost use Rattle.std.specs.Prelude.{◌≡◌, if◌then◌else◌, option_map, unwrap_or, IfOk};
ghost use Rattle.deck_cards.specs.AtNode.{capacitor_of};
ghost use Rattle.deck_cards.specs.Edits.{with_ohms, with_farads, with_wave, with_part, changed, has_name, set_named};

use crate::edit::Edit;
use semantics::{Element, Name, Wave};
use std::alloc::{AllocError, Global};

/// A resistor with this resistance; `None` where the element is none.
fn with_ohms(element: &Element, ohms: i64) -> Result<Option<Element>, AllocError>
    ensures { IfOk result (λ new. new ≡ with_ohms ohms element.now) }
{
    match element {
        Element::Resistor {
            name,
            first,
            second,
            ..
        } => Ok(Some(Element::Resistor {
            name: name.copy()?,
            first: first.copy()?,
            second: second.copy()?,
            ohms,
        })),
        Element::Capacitor { .. } => Ok(None),
        Element::Source { .. } => Ok(None),
        Element::Mos { .. } => Ok(None),
    }
}

/// A capacitor with this capacitance; `None` where the element is none.
fn with_farads(element: &Element, farads: i64) -> Result<Option<Element>, AllocError>
    ensures { IfOk result (λ new. new ≡ with_farads farads element.now) }
{
    match element {
        Element::Capacitor {
            name,
            plus,
            minus,
            ..
        } => Ok(Some(Element::Capacitor {
            name: name.copy()?,
            plus: plus.copy()?,
            minus: minus.copy()?,
            farads,
        })),
        Element::Resistor { .. } => Ok(None),
        Element::Source { .. } => Ok(None),
        Element::Mos { .. } => Ok(None),
    }
}

/// A source with this voltage; `None` where the element is none.
fn with_wave(element: &Element, wave: &Wave) -> Result<Option<Element>, AllocError>
    ensures { IfOk result (λ new. new ≡ with_wave wave.now element.now) }
{
    match element {
        Element::Source {
            name,
            plus,
            minus,
            ..
        } => Ok(Some(Element::Source {
            name: name.copy()?,
            plus: plus.copy()?,
            minus: minus.copy()?,
            wave: wave.copy()?,
        })),
        Element::Resistor { .. } => Ok(None),
        Element::Capacitor { .. } => Ok(None),
        Element::Mos { .. } => Ok(None),
    }
}

/// A device with this model or table; `None` where the element is none.
fn with_part(element: &Element, part: &Name) -> Result<Option<Element>, AllocError>
    ensures { IfOk result (λ new. new ≡ with_part part.now element.now) }
{
    match element {
        Element::Mos {
            name,
            drain,
            gate,
            source,
            bulk,
            length,
            width,
            ..
        } => Ok(Some(Element::Mos {
            name: name.copy()?,
            drain: drain.copy()?,
            gate: gate.copy()?,
            source: source.copy()?,
            bulk: bulk.copy()?,
            part: part.copy()?,
            length: *length,
            width: *width,
        })),
        Element::Resistor { .. } => Ok(None),
        Element::Capacitor { .. } => Ok(None),
        Element::Source { .. } => Ok(None),
    }
}

/// The node that a capacitor is at, and its capacitance; `None` where the element is none.
pub fn capacitor_of(element: &Element) -> Option<(&Name, i64)>
    ensures { option_map (λ p. (p.0.now, p.1)) result ≡ capacitor_of element.now }
{
    match element {
        Element::Capacitor {
            plus,
            minus,
            farads,
            ..
        } => {
            let node = if plus.is_ground() { minus } else { plus };
            Some((node, *farads))
        }
        Element::Resistor { .. } => None,
        Element::Source { .. } => None,
        Element::Mos { .. } => None,
    }
}

/// The element with the value that the edit gives; `None` where it is of another kind, or the edit
/// gives no value.
pub fn changed(element: &Element, edit: &Edit) -> Result<Option<Element>, AllocError>
    ensures { IfOk result (λ new. new ≡ changed edit.now element.now) }
{
    match edit {
        Edit::SetR { ohms, .. } => with_ohms(element, *ohms),
        Edit::SetC { farads, .. } => with_farads(element, *farads),
        Edit::SetWave { wave, .. } => with_wave(element, wave),
        Edit::SetModel { part, .. } => with_part(element, part),
        Edit::SetIc { .. } => Ok(None),
        Edit::Add(_) => Ok(None),
        Edit::Remove(_) => Ok(None),
    }
}

/// An element after the edit: with its value where it has the name and is of its kind, and else as it
/// was.
fn edited(element: &Element, name: &Name, edit: &Edit) -> Result<Element, AllocError>
    ensures { IfOk result (λ new. new ≡ (if has_name name.now element.now
        then unwrap_or (changed edit.now element.now) element.now else element.now)) }
{
    if name == element.name() {
        if let Some(new) = changed(element, edit)? {
            return Ok(new);
        }
    }
    element.copy()
}

/// The elements with the value of the edit at the one of this name.
pub fn set_named(
    alloc: Global,
    elements: &[Element],
    name: &Name,
    edit: &Edit,
) -> Result<Vec<Element>, AllocError>
    ensures { IfOk result (λ new. new.items ≡ set_named name.now (changed edit.now) elements.now) }
{
    let mut new = Vec::with_capacity(alloc, elements.len())?;
    for element in elements {
        new.push(edited(element, name, edit)?)?;
    }
    Ok(new)
}
