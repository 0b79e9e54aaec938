//! Received words: what each terminal of a table takes from the messages of others, by its receive lines.
//!
//! A terminal takes nothing from its own messages, nor from garbled ones. A receive line matches a wordstring of its label and of its
//! extension, or of any, and takes the data words with positions `first` to `first + count - 1`, as far as they exist. The
//! receive lines, their ranges and the text are this project's profile.
//!
//! - [`write_received`] writes what each terminal of a table receives of a list of transmissions, as does [`write_clear_received`] where
//!   none overlap, and [`count_received`] counts its lines.
//! - [`Receiver`] does the same for one receive line, word by word.
//! - [`matches`] says whether a receive line matches.
//!
//! No call takes memory: what each transmission is looked up by stands on the stack, in half a megabyte.
//!
//! The definitions are in `specs/`: `Received` (which words are received), `ReceivedTexts` (their text), `Hearing` (a receiver, word by
//! word), and `FilterLaws`.
//!
//! # How received words are found
//!
//! `write_received` and `count_received` go over the list once for each terminal that has receive lines, and take no memory. What a walk
//! has to know of a transmission that the terminal doesn't take is one number, its key: the label of its one wordstring, or that it has
//! several, or that it is garbled. The keys of up to 262,144 transmissions are gathered in one pass, in half a megabyte on the stack; so
//! who is garbled is asked once, and not at all by `write_clear_received`, of a list in which nothing overlaps; and what no line takes is
//! skipped by sixteens (`bus_filter::skipping`). Of a longer list each walk finds the keys anew.
//!
//! For each terminal a table by key tells between which of its receive lines those of a label stand, and that there are none; where a text
//! is written it is the same table for all, in which the lines of one are noted and taken out again. So a step of the walk costs two looks,
//! and only of what is taken are receive lines compared: those of the label, and what stands between them.
#![tactic(auto)]

mod counting;
mod digits;
mod keys;
pub mod laws;
mod matching;
mod receiver;
mod skipping;
mod spans;
mod terminals;
mod writing;

pub use counting::count_received;
pub use matching::matches;
pub use receiver::{Heard, Receiver};
pub use terminals::{write_clear_received, write_received};
