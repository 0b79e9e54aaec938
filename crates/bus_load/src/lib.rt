//! For how many bit times there is carrier on the bus.
//!
//! - [`carrier_stretches`] gives the [`Stretch`]es of bit times in which a list of transmissions has carrier.
//! - [`bits_within`] says how many bit times of a stretch of time they have.
//!
//! The definitions are in `specs/Loads`. What several send at once counts once, and the quiet between two wordstrings doesn't count.
#![tactic(auto)]

mod counting;
mod gathering;
mod joining;
mod stretch;

pub use counting::bits_within;
pub use gathering::carrier_stretches;
pub use stretch::Stretch;
