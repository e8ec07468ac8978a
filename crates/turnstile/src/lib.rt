//! A lock whose turns make one list: each turn adds at most one entry, and a caller's pass knows the
//! turns that it has seen and which of them are its own.
#![tactic(auto)]

mod held;
mod pass;
mod plays;
mod rule;
mod steps;
mod turns;
mod turnstile;
mod view;

pub use held::Held;
pub use pass::Pass;
pub use turns::Turns;
pub use turnstile::Turnstile;

#[cfg(test)]
mod numbers;
#[cfg(test)]
mod tests;
