//! Decks after an edit.

ghost use Rattle.std.specs.Prelude.{◌≡◌, true, None, Some, [], ◌∷◌, ◌++◌, length, slice_get, map, is_none, option_map, ℤ, ◌<◌, IfOk, OnOk};
ghost use Rattle.std.specs.List.{list_all, list_any};
ghost use Rattle.std.specs.Str.{bytes_eq};
ghost use Rattle.semantics.specs.Deck.{DeckValue, name_of};
ghost use Rattle.semantics.specs.Valid.{differ, driven_of, is_grounded, is_valid};
ghost use Rattle.deck_cards.specs.Answers.{Answers};
ghost use Rattle.deck_cards.specs.Causes.{when, first_that, add_cause, is_driven, is_named, whole_with};
ghost use Rattle.deck_cards.specs.Edits.{changed, edit_cause, edit_limit, edit_rises, edited, element_rises, has_rising, named, place_cause, set_cause, without_name, has_name};
ghost use Rattle.deck_cards.specs.Alone.{IsAlone};
ghost use Rattle.deck_cards.specs.AtNode.{IsAtNode, node_cause, sum_cause};
ghost use Rattle.deck_cards.specs.Facts.{IsTable};
ghost use Rattle.deck_cards.specs.Settled.{put};
ghost use Rattle.deck_cards.specs.declared.edit.Edit.TheVariants as edit_of;
ghost use Rattle.deck_cards.specs.declared.edit_refusal.EditRefusal.TheVariants as refusal;

use crate::edit::Edit;
use crate::edit_refusal::EditRefusal;
use crate::facts::NodeFacts;
use crate::kept::Kept;
use crate::nodes::NodeTable;
use crate::values::{self, element_limit, wave_limit};
use crate::which::Which;
use crate::{adding, changed, limits, nodes, settled};
use indexmap::{IndexMap, IndexSet};
use semantics::{Element, Name, Wave};
use std::alloc::{AllocError, Global};

/// Refuses the first value of the edit outside its limit.
#[tactic(auto, unfolding(crate::specs::Edits::edit_limit))]
fn check_limit(edit: &Edit) -> Result<(), EditRefusal>
    ensures { Answers result (edit_limit edit.now) }
{
    match edit {
        Edit::SetR { name, ohms } => {
            values::check(limits::is_some_ohms(*ohms), Which::Ohms, name)
        }
        Edit::SetC { name, farads } => {
            values::check(limits::is_some_farads(*farads), Which::Farads, name)
        }
        Edit::SetWave { name, wave } => values::refuse(name, wave_limit(wave)),
        Edit::SetModel { .. } => Ok(()),
        Edit::SetIc { node, volts } => values::check(limits::is_small(*volts), Which::Volts, node),
        Edit::Add(element) => values::refuse(element.name(), element_limit(element)),
        Edit::Remove(_) => Ok(()),
    }
}

/// The place of the element of this name.
fn find(kept: &Kept, name: &Name) -> Result<usize, EditRefusal>
    ensures cause { Answers result (when (is_none (named name.now kept.now.elements)) (refusal.NoSuchName name.now)) }
    ensures found { IfOk result (λ i. slice_get kept.now.elements i ≡ named name.now kept.now.elements) }
    ensures within { IfOk result (λ i. i < length kept.now.elements) }
{
    match kept.element_names().get_index_of(name) {
        None => Err(EditRefusal::NoSuchName(name.copy()?)),
        Some(place) => Ok(place),
    }
}

/// The element with the value of the edit, where it is of its kind and its part is there.
fn check_changed(
    kept: &Kept,
    element: &Element,
    name: &Name,
    edit: &Edit,
) -> Result<(), EditRefusal>
    ensures { named name.now kept.now.elements ≡ Some element.now → Answers result (set_cause kept.now name.now (changed edit.now)) }
{
    match changed::changed(element, edit)? {
        None => Err(EditRefusal::WrongKind(name.copy()?)),
        Some(new) => adding::check_part(kept.parts(), &new),
    }
}

/// Refuses a value for an element that is not there or of another kind, and a part that is not there.
fn check_set(kept: &Kept, name: &Name, edit: &Edit) -> Result<(), EditRefusal>
    ensures { Answers result (set_cause kept.now name.now (changed edit.now)) }
{
    let place = find(kept, name)?;
    check_changed(kept, &kept.elements()[place], name, edit)
}

/// Sets a value that no node and no other element can have anything against.
fn set_alone(alloc: Global, kept: &Kept, name: &Name, edit: &Edit) -> Result<Kept, EditRefusal>
    requires { IsAlone kept.now name.now edit.now }
    ensures kept { IfOk result (λ new. new ≡ edited kept.now edit.now) }
    ensures cause { Answers result (edit_cause kept.now edit.now) }
{
    check_set(kept, name, edit)?;
    check_limit(edit)?;
    let elements = changed::set_named(alloc, kept.elements(), name, edit)?;
    Ok(kept.with_elements(alloc, elements)?)
}

/// The names of elements, which differ.
fn names_of(alloc: Global, elements: &[Element]) -> Result<IndexSet<Name>, AllocError>
    requires { differ (map name_of elements.now) ≡ true }
    ensures { IfOk result (λ names. names.keys ≡ map name_of elements.now) }
{
    let mut names = IndexSet::with_capacity(alloc, elements.len())?;
    for element in elements {
        adding::insert(&mut names, element.name())?;
    }
    Ok(names)
}

/// What the type of a wave says of an edit that brings one.
fn rising(edit: &Edit)
    ensures { edit_rises edit.now ≡ true }
{
    match edit {
        Edit::SetWave { wave, .. } => rising_points(wave),
        Edit::Add(element) => rising_source(element),
        Edit::SetR { .. } => {}
        Edit::SetC { .. } => {}
        Edit::SetModel { .. } => {}
        Edit::SetIc { .. } => {}
        Edit::Remove(_) => {}
    }
}

/// What the type of a wave says of an element.
fn rising_source(element: &Element)
    ensures { element_rises element.now ≡ true }
{
    match element {
        Element::Source { wave, .. } => rising_points(wave),
        Element::Resistor { .. } => {}
        Element::Capacitor { .. } => {}
        Element::Mos { .. } => {}
    }
}

/// What the type of a wave says.
fn rising_points(wave: &Wave)
    ensures { has_rising wave.now ≡ true }
{
    wave.points();
}

/// Makes the deck after an edit that its elements have nothing against, with these elements, where the
/// whole has nothing against it.
fn remake(
    alloc: Global,
    kept: &Kept,
    edit: &Edit,
    elements: Vec<Element>,
) -> Result<Kept, EditRefusal>
    requires place { place_cause kept.now edit.now ≡ None }
    requires elements { edited kept.now edit.now ≡ record kept.now { elements = elements.items } }
    requires grounded { list_all is_grounded elements.items ≡ true }
    ensures kept { IfOk result (λ new. new ≡ edited kept.now edit.now) }
    ensures cause { Answers result (edit_cause kept.now edit.now) }
{
    let table = NodeTable::of(alloc, &elements)?;
    check_remade(alloc, kept, edit, &elements, &table)?;
    let names = names_of(alloc, &elements)?;
    Ok(kept.with_nodes(alloc, elements, names, table)?)
}

/// Refuses what the whole deck after the edit has against it.
fn check_remade(
    alloc: Global,
    kept: &Kept,
    edit: &Edit,
    elements: &[Element],
    table: &NodeTable,
) -> Result<(), EditRefusal>
    requires place { place_cause kept.now edit.now ≡ None }
    requires elements { edited kept.now edit.now ≡ record kept.now { elements = elements.now } }
    requires table { IsTable (edited kept.now edit.now) table.now.names.keys table.now.facts.items }
    ensures cause { Answers result (edit_cause kept.now edit.now) }
    ensures valid { OnOk result (is_valid (edited kept.now edit.now) ≡ true) }
{
    rising(edit);
    table.check_free(kept.frame().uic, kept.voltages())?;
    check_limit(edit)?;
    table.check_sizes(alloc, elements)
}

/// That the deck is valid, as its type says.
fn known(kept: &Kept)
    ensures { is_valid kept.now ≡ true }
{
    kept.frame();
}

/// Refuses what the sum of the capacitors at a free node has against it, and the value of the edit.
fn check_sum(edit: &Edit, node: &Name, farads: i128) -> Result<(), EditRefusal>
    ensures { Answers result (sum_cause node.now (edit_limit edit.now) farads) }
{
    if farads == 0 {
        return Err(EditRefusal::Uncapped(node.copy()?));
    }
    check_limit(edit)?;
    if 1_000_000_000_000 < farads {
        return Err(EditRefusal::Limit(Which::NodeFarads, node.copy()?));
    }
    Ok(())
}

/// Refuses what one node of the deck after the edit has against it, and the value of the edit.
fn check_node(
    edit: &Edit,
    names: &IndexSet<Name>,
    facts: &[NodeFacts],
    node: &Name,
) -> Result<(), EditRefusal>
    requires { length facts.now ≡ length names.now.keys }
    ensures { (d : DeckValue) → IsTable d names.now.keys facts.now
        → Answers result (node_cause d node.now (edit_limit edit.now)) }
{
    match nodes::free_farads(names, facts, node) {
        None => check_limit(edit),
        Some(farads) => check_sum(edit, node, farads),
    }
}

/// Sets a value that makes the sum at one node so much more, and that no other node and no other
/// element can have anything against.
fn set_at_node(
    alloc: Global,
    kept: &Kept,
    name: &Name,
    edit: &Edit,
    node: &Name,
    more: &i128,
) -> Result<Kept, EditRefusal>
    requires { IsAtNode kept.now name.now node.now more.now edit.now }
    ensures kept { IfOk result (λ new. new ≡ edited kept.now edit.now) }
    ensures cause { Answers result (edit_cause kept.now edit.now) }
{
    let names = kept.node_names();
    let facts = nodes::with_farads(names, kept.facts(), node, more)?;
    check_node(edit, names, &facts, node)?;
    let elements = changed::set_named(alloc, kept.elements(), name, edit)?;
    Ok(kept.with_facts(alloc, elements, facts)?)
}

/// Sets the capacitance of this element.
fn set_capacitor(
    alloc: Global,
    kept: &Kept,
    element: &Element,
    name: &Name,
    farads: i64,
    edit: &Edit,
) -> Result<Kept, EditRefusal>
    requires named { named name.now kept.now.elements ≡ Some element.now }
    requires edit { edit.now ≡ edit_of.SetC name.now farads }
    ensures kept { IfOk result (λ new. new ≡ edited kept.now edit.now) }
    ensures cause { Answers result (edit_cause kept.now edit.now) }
{
    known(kept);
    let Some((node, old)) = changed::capacitor_of(element) else {
        return Err(EditRefusal::WrongKind(name.copy()?));
    };
    let more = i128::from(farads) - i128::from(old);
    set_at_node(alloc, kept, name, edit, node, &more)
}

/// Sets a capacitance.
fn set_farads(
    alloc: Global,
    kept: &Kept,
    name: &Name,
    farads: i64,
    edit: &Edit,
) -> Result<Kept, EditRefusal>
    requires { edit.now ≡ edit_of.SetC name.now farads }
    ensures kept { IfOk result (λ new. new ≡ edited kept.now edit.now) }
    ensures cause { Answers result (edit_cause kept.now edit.now) }
{
    let place = find(kept, name)?;
    set_capacitor(alloc, kept, &kept.elements()[place], name, farads, edit)
}

/// Whether an element drives this node.
fn drives(element: &Element, node: &Name) -> bool
    ensures { result ≡ list_any (bytes_eq node.now) (driven_of element.now) }
{
    match element {
        Element::Source { plus, minus, .. } => {
            (!plus.is_ground() && node == plus) || (!minus.is_ground() && node == minus)
        }
        Element::Mos { .. } => false,
        Element::Capacitor { .. } => false,
        Element::Resistor { .. } => false,
    }
}

/// Whether one of these elements drives this node.
fn is_driven(elements: &[Element], node: &Name) -> bool
    ensures { result ≡ is_driven elements.now node.now }
{
    for element in elements {
        if drives(element, node) {
            return true;
        }
    }
    false
}

/// Refuses a source of a node that is driven already.
fn check_driver(kept: &Kept, element: &Element) -> Result<(), EditRefusal>
    requires { is_grounded element.now ≡ true }
    ensures { Answers result (option_map refusal.TwoDrivers (first_that (is_driven kept.now.elements) (driven_of element.now))) }
{
    match element {
        Element::Source { plus, minus, .. } => {
            let node = if plus.is_ground() { minus } else { plus };
            if is_driven(kept.elements(), node) {
                return Err(EditRefusal::TwoDrivers(node.copy()?));
            }
            Ok(())
        }
        Element::Mos { .. } => Ok(()),
        Element::Capacitor { .. } => Ok(()),
        Element::Resistor { .. } => Ok(()),
    }
}

/// Refuses an element of a name that stands already.
fn check_name(kept: &Kept, element: &Element) -> Result<(), EditRefusal>
    ensures { Answers result (when (is_named kept.now.elements (name_of element.now)) (refusal.DuplicateName (name_of element.now))) }
{
    let name = element.name();
    if kept.element_names().contains(name) {
        return Err(EditRefusal::DuplicateName(name.copy()?));
    }
    Ok(())
}

/// Refuses an element that the deck has something against as it stands.
fn check_add(kept: &Kept, element: &Element) -> Result<(), EditRefusal>
    ensures cause { Answers result (add_cause kept.now kept.now.elements element.now) }
    ensures grounded { OnOk result (is_grounded element.now ≡ true) }
{
    check_name(kept, element)?;
    adding::check_part(kept.parts(), element)?;
    adding::check_grounded(element)?;
    check_driver(kept, element)
}

/// These elements, and behind them one more.
fn with_element(
    alloc: Global,
    elements: &[Element],
    element: &Element,
) -> Result<Vec<Element>, AllocError>
    ensures { IfOk result (λ new. new.items ≡ elements.now ++ element.now ∷ []) }
{
    let mut new = Vec::with_capacity(alloc, elements.len() + 1)?;
    for old in elements {
        new.push(old.copy()?)?;
    }
    new.push(element.copy()?)?;
    Ok(new)
}

/// Puts an element behind the others.
fn add(alloc: Global, kept: &Kept, element: &Element, edit: &Edit) -> Result<Kept, EditRefusal>
    requires { edit.now ≡ edit_of.Add element.now }
    ensures kept { IfOk result (λ new. new ≡ edited kept.now edit.now) }
    ensures cause { Answers result (edit_cause kept.now edit.now) }
{
    known(kept);
    check_add(kept, element)?;
    let elements = with_element(alloc, kept.elements(), element)?;
    remake(alloc, kept, edit, elements)
}

/// These elements but those of this name.
fn without_name(
    alloc: Global,
    elements: &[Element],
    name: &Name,
) -> Result<Vec<Element>, AllocError>
    ensures { IfOk result (λ new. new.items ≡ without_name name.now elements.now) }
{
    let mut new = Vec::with_capacity(alloc, elements.len())?;
    for element in elements {
        if name != element.name() {
            new.push(element.copy()?)?;
        }
    }
    Ok(new)
}

/// Takes out the element of this name.
fn remove(alloc: Global, kept: &Kept, name: &Name, edit: &Edit) -> Result<Kept, EditRefusal>
    requires { edit.now ≡ edit_of.Remove name.now }
    ensures kept { IfOk result (λ new. new ≡ edited kept.now edit.now) }
    ensures cause { Answers result (edit_cause kept.now edit.now) }
{
    known(kept);
    find(kept, name)?;
    let elements = without_name(alloc, kept.elements(), name)?;
    remake(alloc, kept, edit, elements)
}

/// Names and voltages as a list.
fn pairs_of(alloc: Global, voltages: &IndexMap<Name, i64>) -> Result<Vec<(Name, i64)>, AllocError>
    ensures { IfOk result (λ pairs. pairs.items ≡ voltages.now.entries) }
{
    let mut pairs = Vec::with_capacity(alloc, voltages.len())?;
    for (name, volts) in voltages.iter() {
        pairs.push((name.copy()?, *volts))?;
    }
    Ok(pairs)
}

/// These voltages with that of a node in place of the one it had, or behind the others.
fn with_voltage(
    alloc: Global,
    voltages: &IndexMap<Name, i64>,
    node: &Name,
    volts: i64,
) -> Result<IndexMap<Name, i64>, AllocError>
    requires { differ (map (λ p. p.0) voltages.now.entries) ≡ true }
    ensures { IfOk result (λ new. new.entries ≡ put voltages.now.entries (node.now, volts)) }
{
    let mut pairs = pairs_of(alloc, voltages)?;
    pairs.push((node.copy()?, volts))?;
    settled::each_once(alloc, pairs)
}

/// Sets an initial voltage.
fn set_initial(
    alloc: Global,
    kept: &Kept,
    node: &Name,
    volts: i64,
    edit: &Edit,
) -> Result<Kept, EditRefusal>
    requires { edit.now ≡ edit_of.SetIc node.now volts }
    ensures kept { IfOk result (λ new. new ≡ edited kept.now edit.now) }
    ensures cause { Answers result (edit_cause kept.now edit.now) }
{
    known(kept);
    check_limit(edit)?;
    let voltages = with_voltage(alloc, kept.voltages(), node, volts)?;
    Ok(kept.with_voltages(alloc, voltages)?)
}

/// What is kept of the deck after the edit.
pub fn edited(alloc: Global, kept: &Kept, edit: &Edit) -> Result<Kept, EditRefusal>
    ensures kept { IfOk result (λ new. new ≡ edited kept.now edit.now) }
    ensures cause { Answers result (edit_cause kept.now edit.now) }
{
    known(kept);
    rising(edit);
    match edit {
        Edit::SetR { name, .. } => set_alone(alloc, kept, name, edit),
        Edit::SetC { name, farads } => set_farads(alloc, kept, name, *farads, edit),
        Edit::SetWave { name, .. } => set_alone(alloc, kept, name, edit),
        Edit::SetModel { name, .. } => set_alone(alloc, kept, name, edit),
        Edit::SetIc { node, volts } => set_initial(alloc, kept, node, *volts, edit),
        Edit::Add(element) => add(alloc, kept, element, edit),
        Edit::Remove(name) => remove(alloc, kept, name, edit),
    }
}
