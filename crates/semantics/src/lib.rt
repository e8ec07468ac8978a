//! What a circuit is and what its run gives: the data of a deck, and in `specs/` the definitions that every other crate's contracts cite.
#![tactic(auto)]

mod channel;
mod element;
mod event;
mod fraction;
mod line;
mod name;
mod text;
mod title;
mod wave;

pub use channel::Channel;
pub use element::Element;
pub use event::Event;
pub use fraction::Fraction;
pub use line::Line;
pub use name::Name;
pub use title::Title;
pub use wave::{Wave, WaveRefusal};
