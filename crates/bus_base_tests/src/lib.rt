//! Tests of bus_outer, bus_text, bus_words, bus_strings, bus_say, bus_timers and bus_load by their public calls: in a crate of their own,
//! so that each of these is proved once and not a second time with its tests.
#![tactic(auto)]

#[cfg(test)]
mod failing_files;
#[cfg(test)]
mod files;
#[cfg(test)]
mod load;
#[cfg(test)]
mod messages_text;
#[cfg(test)]
mod sentences;
#[cfg(test)]
mod sinks;
#[cfg(test)]
mod sources;
#[cfg(test)]
mod strings;
#[cfg(test)]
mod text;
#[cfg(test)]
mod timers;
#[cfg(test)]
mod words;
