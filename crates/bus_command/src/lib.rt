//! What any command over the texts of a bus is, whatever program it belongs to: how it takes its texts, what it comes to, and the line
//! that says so.
//!
//! An [`Outcome`] is what a command came to; what only one program refuses is its parameter, a [`Refusal`]. [`outcome_text`] writes its
//! line, and [`Status`] is how the program ends. [`take_table`], [`take_hands`], [`take_trace`] and [`take_traced`] are the steps by which
//! a command takes its texts, and [`after_writing`] is what it comes to once its answer is written. [`About`] is what a program tells of
//! itself. What stands behind the plain words is read by `bus_options`. Around its command a program gathers its
//! [`words`], makes the files that they name into [`FileSources`], and ends with a number, [`exit_number`].
//!
//! `specs/Acts` says what a command does to the outside, `specs/Due` what is due of both texts, and `specs/Claims` how texts that are right
//! are told. `proofs/PrepareLaws` and `proofs/DoLaws` put the steps of a command together.
//!
//! # How the contract of a command is put together
//!
//! What any command over such texts is stands in `bus_command`, below `bus_tool` and `bus_view`. An `Outcome<R>` is what a command came to;
//! what only one program refuses is its parameter `R`, with the place where it refuses: the first text, the second, or what comes of both.
//! The contracts come over the same words for every command, read from the bottom:
//!
//! - `specs/Kinds` gives each outcome its *kind*: usage, a failed read, a text that is too large, a text that is wrong, a late refusal, a
//!   failed write, want of memory, an answer. All that is said of outcomes beside their words and causes is said by kind, in one table,
//!   `row_of`: where it stands in the order of refusals, how far the sources were read, when it may come, which count rose, what it may
//!   replace that is due, and what `out` holds. Nothing has a catch-all: a new outcome doesn't check until its kind, its status, its line
//!   and its cause are said.
//! - `specs/Outside` has one word for what a call reads and writes, before and after: `Outside` is both sources and `out`, each as the
//!   bytes that it tells and its count of faults; a `Call` is the words and the outside before and after.
//! - `specs/Readers` says how a source is read, which a form says of each source that it names: whole up to a limit, or as a trace, up to
//!   where that is decided, and behind that, for pictures, up to where it is decided whether a heard text stands there (`specs/Heard`).
//!   `Reads` says how far it was read, by the kind of the outcome; `SourceCounts` and `OutCounts` say which count rose. `ForTexts` speaks
//!   of the texts that the sources tell, and of *some* text where one tells nothing.
//! - `specs/Due` computes what is due of the texts, step by step with `>>=`: each step gives a value or the outcome that refuses it, so
//!   that the order of the steps is the order of refusals.
//! - `specs/Stages` says what may replace the outcome that is due (`MayReplace`): a failed read of a source before which nothing is
//!   refused, want of memory, a failed write.
//! - `Takes` and `Prepares` (`specs/Steps`) say what the steps that take the texts did to the sources, `Ends` (`specs/Acts`) what a command
//!   did behind them, and `Does` both together. A `Command` (`specs/Commands`) is its sources, why it refuses the first text, what is due
//!   of both, what it writes of them, and the cause of a refusal of the program's own. A `Program` is its forms, the command of each, and
//!   how it ends with such a refusal; `Acts` is what a call of it did, and `ComesOf` what the top call came to, with the line on `err` and
//!   the status.
//! - `specs/Causes` has the cause of each refusal by the relation between a value and its texts, and `specs/Claims` how a call is told
//!   whose texts are right, and what it answers.
//!
//! A program adds what is its own: `specs/Forms` its words, in groups by what they take; `specs/Refusals` what only it refuses; `specs/Due`
//! the answer of each command to what its group takes; and what it writes, the cause of its own refusals, and one record, `Promises`, with
//! a field for each command on texts that are right. `specs/Commands` has the command of each form, `command_of`, of these, and
//! `specs/Acts` the program (`tool_program`, `view_program`).
//!
//! - bus_tool has what it writes in `specs/Texts`, the causes in `specs/Causes`, and the record in `specs/Promises`. Its fields speak of
//!   values: `specs/Asked` has what a call can ask for, `specs/Replies` what is answered, `Asking` and `Answering` by which words and
//!   texts, each a case for each command or reply, and `Spellings` what some texts tell beyond that. `Keeping` puts these together for the
//!   top call.
//! - bus_view, which has one refusal and few texts, has these in `specs/Due`, the cause in `specs/Commands`, and the record in
//!   `specs/Claims`, with one field for all dumps and one for both pictures. Its `Asked`, `Asking`, `Replies`, `Answering` and `Keeping`
//!   are as there.
#![tactic(auto)]

mod about;
mod fates;
mod fault_line;
mod gathering;
mod heard;
mod inputs;
mod outcome;
mod recorded;
mod refusal;
mod sources;
mod status;
mod writing;

pub use about::{About, about_of, tell};
pub use fates::exit_number;
pub use fault_line::{outcome_text, put_error};
pub use gathering::words;
pub use inputs::{
    Dealt, TEXT_LIMIT, Traced, take_hands, take_table, take_text, take_trace, take_traced,
};
pub use outcome::Outcome;
pub use recorded::{Recorded, take_recorded};
pub use refusal::{Place, Refusal};
pub use sources::{FileSources, sources_of};
pub use status::Status;
pub use writing::after_writing;
