//! Tests of bus_dump by its public calls: in a crate of their own, so that bus_dump is proved once and not a second time with them.
#![tactic(auto)]

#[cfg(test)]
mod calls;
#[cfg(test)]
mod reading;
#[cfg(test)]
mod saved;
#[cfg(test)]
mod single;
#[cfg(test)]
mod timers;
#[cfg(test)]
mod worked;
