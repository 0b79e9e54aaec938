//! Tests of bus_made by its public calls: in a crate of their own, so that bus_made is proved once and not a second time with them.
#![tactic(auto)]

#[cfg(test)]
mod made;
