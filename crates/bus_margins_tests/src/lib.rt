//! Tests of bus_margins by its public calls: in a crate of their own, so that bus_margins is proved once and not a second time with them.
#![tactic(auto)]

#[cfg(test)]
mod alone;
#[cfg(test)]
mod lacking;
#[cfg(test)]
mod several;
#[cfg(test)]
mod tables;
