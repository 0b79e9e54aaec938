//! Tests of bus_table by its public calls: in a crate of their own, so that bus_table is proved once and not a second time with them.
#![tactic(auto)]

#[cfg(test)]
mod hand;
#[cfg(test)]
mod offset;
#[cfg(test)]
mod refused;
#[cfg(test)]
mod table;
