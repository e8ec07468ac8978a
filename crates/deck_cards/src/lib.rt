//! A deck of cards: a valid deck by its type, and why parts make none.
#![tactic(auto)]

mod adding;
mod apply;
mod changed;
mod counts;
mod deck;
mod edit;
mod edit_refusal;
mod edits;
mod elements;
mod facts;
mod frame;
mod kept;
pub mod laws;
pub mod limits;
mod nodes;
mod part;
mod parts;
mod settled;
mod terminals;
mod values;
mod which;

pub use deck::Deck;
pub use edit::Edit;
pub use edit_refusal::EditRefusal;
pub use edits::Edits;
pub use elements::{is_grounded, name_of};
pub use nodes::add_ends;
pub use part::Part;
pub use parts::DeckParts;
pub use semantics::{Channel, Element, Name, Title, Wave, WaveRefusal};
pub use values::element_limit;
pub use which::Which;
