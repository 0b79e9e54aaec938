//! Tests of the bus, of what is told of a table before it runs, and of cables, by the public calls of bus_medium,
//! bus_propagation, bus_regime, bus_plan, bus_advice, bus_schedule, bus_dropout, bus_reach, bus_cable and bus_vectors: in a crate of
//! their own, so that each of these is proved once and not a second time with its tests.
#![tactic(auto)]

#[cfg(test)]
mod advice;
#[cfg(test)]
mod all_offsets;
#[cfg(test)]
mod aperiodic_reach;
#[cfg(test)]
mod cable_plan;
#[cfg(test)]
mod cable_text;
#[cfg(test)]
mod dropout;
#[cfg(test)]
mod heard;
#[cfg(test)]
mod medium;
#[cfg(test)]
mod medium_rows;
#[cfg(test)]
mod periodic_reach;
#[cfg(test)]
mod plan;
#[cfg(test)]
mod propagation;
#[cfg(test)]
mod propagation_rows;
#[cfg(test)]
mod regime;
#[cfg(test)]
mod schedule;
#[cfg(test)]
mod shared;
#[cfg(test)]
mod terminal;
#[cfg(test)]
mod vectors;
