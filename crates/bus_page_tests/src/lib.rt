//! Tests of bus_page by its public calls: in a crate of their own, so that it is proved once and not a second time with them.
#![tactic(auto)]

#[cfg(test)]
mod pages;
