//! What the tolerance of a table in bit times says of its level where clocks are exact.
#![tactic(auto)]

pub mod laws;
