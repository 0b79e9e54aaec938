//! A bus without a master whose clocks aren't exact: what may happen on it, when its senders are in order, and that order comes about
//! by itself.
//!
//! # Order on real clocks, in layers
//!
//! In bus_clocks one course is fixed, and facts of its moments lead to rounds.
//!
//! - `proofs/Timers` and `Worlds` turn hearing and timers into facts of transmissions alone: when a synchronization gap may and must
//!   elapse, and when a sender may and must start. Nothing above them speaks of carrier.
//! - `Turns` has what a *turn* is: all that began has ended, those that have yet to speak in the round are in sync, and the others wait;
//!   and the step from one turn to the next. `Rounds` walks from turn to turn, `Starts` comes to the first one from the power-ups (order
//!   from the beginning, where hands may end and transmit intervals may last a cycle), `Calming` from any state: it goes over the
//!   transmissions one by one, whether they overlap or not, until all wait. `Growing` is the walk of joiners. `Spacing` and `Placed` read
//!   what follows off the rounds.
//! - A sender that is alone is a bus without delay (`Alone`). Some senders of a bus (`Parts`), what happens behind a fault (`Faults`), and
//!   what a course does behind any moment (`Cuts`, `GoOn`) are courses too, so that one theorem serves all.
//! - `Existence` builds the course moment by moment, by deciding who may start, and `Unique` shows that there is no second. `Chosen` has
//!   courses with timers and delays of one's own choice, from which `Needs`, `NeedSync` and `NeedTurns` take those that aren't in order,
//!   and `Wandering` an admissible list that never is.
#![tactic(auto)]

pub mod laws;
