//! Tests of bus_tool by its public calls: in a crate of their own, so that bus_tool is proved once and not a second time with them. Here is
//! what needs the inside: sources and sinks that fail, texts in memory and the stored rows. What a command makes of words and texts is a
//! case, a row of a table in cases/.
#![tactic(auto)]

#[cfg(test)]
mod calls;
#[cfg(test)]
mod fault;
#[cfg(test)]
mod in_memory;
#[cfg(test)]
mod row;
#[cfg(test)]
mod texts;
