//! The facts of a table, for scripts: one JSON object with all that `explain` tells in sentences, and more numbers.
//!
//! [`facts_of`] tells of any text, whether it is one of a table or not. What it tells is a JSON value (`specs/Facts`), made of the verdict
//! (`specs/Verdicts`), the advices (`specs/Advised`), the figures of an accepted table (`specs/Bounds`), its level on clocks that drift
//! (`specs/Margins`), its senders and the latency of their data (`specs/Senders`), what feeds each TAKE line and who takes each SEND line
//! (`specs/Takes`), its start (`specs/Starts`), or why there is no valid table (`specs/Wrong`). Each number is that of a definition of a crate below.
#![tactic(auto)]

mod advised;
mod bounds;
mod margins;
mod pace;
mod senders;
mod starts;
mod table;
mod taken;
mod takes;
mod telling;
mod values;
mod verdict;
mod wrong;

pub use telling::{Facts, facts_of};
