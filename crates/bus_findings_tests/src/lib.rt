//! Tests of bus_findings by its public calls: in a crate of their own, so that bus_findings is proved once and not a second time with them.
#![tactic(auto)]

#[cfg(test)]
mod faulty;
#[cfg(test)]
mod late;
#[cfg(test)]
mod planted;
#[cfg(test)]
mod recording;
#[cfg(test)]
mod rows;
#[cfg(test)]
mod sound;
