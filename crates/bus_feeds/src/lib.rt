//! Feeds: which SEND lines give words to a TAKE line, and which of its words come.
//!
//! A SEND line of another terminal feeds a TAKE line where its label is the same, and its extension is, or the TAKE line has `*`. Of the
//! TAKE line's words those below the SEND line's least always come, those from there to below its most sometimes, the others never.
//!
//! - [`feeds`] and [`share_of`] say this of two lines.
//! - [`is_fed`] says whether anything feeds a TAKE line, [`only_itself_sends`] whether only its own terminal sends what it asks for, and
//!   [`next_feeder`] and [`next_feed`] go over the senders, and over the SEND lines of each, that feed it.
//! - [`is_taken`] says whether any terminal takes a SEND line, [`sender_takes`] and [`listener_takes`] whether one does; [`next_sender`] and
//!   [`next_listener`] go over those that do.
//! - [`laws`] has what this means for the received words of `bus_filter`.
//!
//! No call takes memory.
//!
//! The definitions are in `specs/`: `Feeds` (which lines feed which, and their words) and `FeedLaws`.
#![tactic(auto)]

mod feeders;
pub mod laws;
mod places;
mod share;
mod takers;

pub use feeders::{is_fed, is_feeder, next_feed, next_feeder, only_itself_sends};
pub use share::{Share, feeds, share_of};
pub use takers::{is_taken, listener_takes, next_listener, next_sender, sender_takes};
