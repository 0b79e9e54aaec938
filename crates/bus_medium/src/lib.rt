//! The shared bus: at each moment every terminal decides, and then all hear the carrier that any of them has.
//!
//! [`Bus`] is settled of a table and the hands of its senders, over any [`bus_timers::Core`], and observed up to a
//! horizon, bit time for bit time; over a [`bus_timers::JumpCore`] also by jumps, from start to start. Both give the
//! lawful list (`specs/Lawful.antt`): a sender starts exactly where its timers allow and it has a message left, after
//! the past that the list itself makes (`specs/Past.antt`). `specs/inside/Runs.antt` says what a run knows from moment to
//! moment, and `specs/inside/Lazy.antt` how a run by jumps keeps the timers of all senders in plain numbers beside their
//! cores, which are told what was heard only where they start, and at the horizon; nor are the numbers of a sender told of each message.
//! [`timings`] has the timings of a table's senders.
//!
//! A [`Terminal`] of it begins its next message when its timers allow, sends it to its end, and passes its timers the carrier of each bit
//! time, or of a whole stretch in which nothing of it changes (`specs/MessageStretches.antt`).
//!
//! [`laws`] has what follows of the definitions: every valid table with its hands has exactly one lawful list
//! ([`laws::one_lawful_list`]), which `specs/LawfulList.antt` computes; it grows by stretches in which nobody is due
//! and by single starts ([`laws::lawful_turns`]); a whole message counts for the timers as its bits of carrier
//! ([`laws::messages_are_carrier`]), and so does any stretch that transmissions keep busy ([`laws::busy_stretches`]);
//! what the past of a list has where ([`laws::pasts`]); why a terminal that is sending never starts anew
//! ([`laws::sending_is_not_ready`]), and that a stretch of a message leads where as many bit times do
//! ([`laws::stretches_are_bit_times`]).
//!
//! The same bus on a cable with length, whose terminals were powered up when they liked, stands beside it: what each terminal
//! hears and when (`specs/Delays.antt`), what it has heard since its power-up (`specs/Wakes.antt`), and the lawful list of that
//! (`specs/CableLawful.antt`), which differs in who is due alone. Here too there is exactly one ([`laws::one_cable_list`]). As long as
//! no transmission begins before all have heard the one before, four numbers of each sender tell who is due next
//! ([`laws::clocks_tell`]).
//!
//! # One induction for schedules, with delays
//!
//! What the senders of a bus do is proved once, on a cable with delays (bus_medium, `proofs/CableClocks`, `CableSteps`), and what holds
//! without delays is the case 0 of it. Four numbers tell a sender's timers after what it heard: when its last message was heard to end,
//! when its interval is over, from where it counts its terminal gap, and how many messages it has sent. A step says: who is due next
//! starts, all others hear it before they are due, and the four numbers move on.
//!
//! - The lawful lists with delays and without are both those that a *rule* of who is due makes; that there is exactly one is proved of any
//!   rule (`proofs/Ruled`, `RuledList`).
//! - In aperiodic mode rounds of the senders that have a message left go by that step, whatever the hands: even hands give the closed
//!   schedule, uneven ones the drop-out schedule, where each round behind the first takes at least one transmit interval
//!   (`bus_schedule/specs/Live`, `laws::live_rounds`). Who is awake joins in the same way (bus_reach, `proofs/Rounding`): a run of a table
//!   on a cable that it bears is a growing schedule in which all are awake from the first round on.
//! - In periodic mode each sender is due at its offset. That it is in sync is told by looking ahead: it has heard a synchronization gap, or
//!   hears the last message no later than a slack with which it stays in sync over the gaps to come (`bus_schedule/proofs/Swaying`).
//! - The converse looks at the second start alone: what it asks of the gap before it, and of a quiet stretch that is pushed behind one
//!   heard message after the other (`bus_schedule/proofs/Breaking`, bus_reach for aperiodic mode).
//! - Order from any start is of another form: one lawful list is fixed, and facts of its moments lead to the first at which all is quiet
//!   for long enough (bus_reach, `specs/Settling`).
#![tactic(auto)]

mod bit_times;
mod bus;
mod deciding;
mod ending;
mod first;
pub mod laws;
mod note;
mod passing;
mod place;
mod seat;
mod seating;
mod starting;
mod terminal;
mod timers;
mod timings;
mod turns;

pub use bus::{Bus, OBSERVE_LIMIT};
pub use seat::Seat;
pub use terminal::Terminal;
pub use timings::{quiet, timing};
