//! Tests of bus_view by its public calls: in a crate of their own, so that bus_view is proved once and not a second time with them. Here is
//! what needs the inside: a source that gives pieces, or fails. What a command makes of words and texts is a case, a row of a table in cases/.
#![tactic(auto)]

#[cfg(test)]
mod calls;
#[cfg(test)]
mod on_cable;
