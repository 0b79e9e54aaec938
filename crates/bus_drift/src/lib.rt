//! A periodic bus whose clocks aren't exact: its senders keep their turns for ever, where the bounds leave room, and where one clock leads.
//!
//! # Turn by turn
//!
//! Turns are numbers: turn n is of sender n modulo K, and is held to be entry n of the list. What a bound of any stretch of turns is
//! repeats with each round (`proofs/Sums`, `Steps`), so there is no round in the induction, which goes turn by turn.
//!
//! - `Turning` says what turn m knows of those around it, `Chains` what held it back: its own interval, or that of a turn before it and all
//!   messages between. `Dues` shows that its sender begins by the moment at which it is due, being in sync and having a message left
//!   (`Left`), if nobody begins before; `Turns` that nobody does, and so goes on by one.
//! - The induction leaves two facts open: that whose turn it is is in sync in time, and that it is heard before anybody else begins.
//!   `Syncing` has both where the bounds leave room for turns, whoever is the slowest, `Leading` where one clock leads. `Pace` and
//!   `Leading` read off what follows over many rounds.
//! - `Colliding`, `Waiting` and `Unled` are courses that are written out. In `Rows` tests that compute say where each may start.
#![tactic(auto)]

pub mod laws;
