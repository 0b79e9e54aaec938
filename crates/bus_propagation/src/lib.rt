//! The bus on a straight cable with length, whose terminals are powered up when they like.
//!
//! [`observe_delayed`] gives the lawful list on the cable (`bus_medium`'s `specs/CableLawful.antt`), and the only one. It goes from
//! start to start, never bit time for bit time: each sender keeps two places that tell its timers after what it has heard
//! (`specs/inside/Hearing.antt`), for which a whole transmission is one stretch of carrier. It looks ahead over what is
//! sent already and will still be heard, up to its own next start; the first of these starts is the next of all
//! (`specs/inside/Turns.antt`), since whatever is sent then is heard no earlier. Who can't be the first by what it heard
//! before need not look, since nothing that others send brings a start forward.
//!
//! # How a bus on a cable is observed
//!
//! `observe_delayed` (bus_propagation) goes from start to start. What a terminal hears below a moment comes of starts below that moment,
//! since no delay is negative; so the next start of all is the first of those that the senders would make if nothing more were sent.
//!
//! A sender keeps its timers as two places, when its interval is over and from where its terminal gap counts, after what it has heard up to
//! a moment. For them a whole transmission is one stretch of carrier, however its pulses lie, also where it is heard from the middle on,
//! and also where others overlap it (bus_medium, `proofs/Waking`); so a sender hears of a transmission in one step, however long it is.
//!
//! A sender hears of the others only where it may be the next to start. Beside its timers it keeps a moment before which it doesn't start:
//! at first, and behind each start of its own, where its interval elapses; behind a look ahead, the start that it found. That stays true
//! whatever the others send, since a bit time more of carrier never brings a start forward (`proofs/RestLemmas`). To find the next start of
//! all, one walk over the senders keeps the first start so far, and only a sender whose moment is no later than that hears of the list. So
//! a periodic sender hears of a round at the end of its interval, and not at each start of the others.
//!
//! From its timers it looks ahead over what is sent and will still be heard, in the order in which it hears it begin, until it is ready
//! before the next of these begins. It keeps the places only up to what it has heard to the end by now: what is sent later may be heard
//! before the rest. A terminal that is to be powered up stands at its power-up, whatever comes before.
#![tactic(auto)]

mod arrival;
mod attending;
mod looking;
mod observing;
mod places;
mod seat;
mod seating;
mod starting;
mod timers;
mod turns;

pub use observing::observe_delayed;
pub use places::{MOST_PLACE, distance, number_of};
