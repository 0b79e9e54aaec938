//! Tests of bus_wave by its public calls: in a crate of their own, so that bus_wave is proved once and not a second time with them.
#![tactic(auto)]

#[cfg(test)]
mod digits;
#[cfg(test)]
mod lines;
#[cfg(test)]
mod refused;
#[cfg(test)]
mod whole;
