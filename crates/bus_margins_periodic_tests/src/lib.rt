//! Tests of bus_margins_periodic by its public calls: in a crate of their own, so that it is proved once and not a second time with them.
#![tactic(auto)]

#[cfg(test)]
mod lacking;
#[cfg(test)]
mod margins;
#[cfg(test)]
mod sentences;
