//! Tests of bus_trace, bus_filter, bus_audit and bus_vote by their public calls: in a crate of their own, so that each of these is
//! proved once and not a second time with its tests.
#![tactic(auto)]

#[cfg(test)]
mod audit;
#[cfg(test)]
mod audit_changes;
#[cfg(test)]
mod filter;
#[cfg(test)]
mod mark;
#[cfg(test)]
mod piece;
#[cfg(test)]
mod texts;
#[cfg(test)]
mod vote;
