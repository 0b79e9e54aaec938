//! What a verdict on a table means, and what to change, in plain sentences.
//!
//! - [`write_accepted`] tells an accepted table: its cycles, its spare, its load, its senders, its tolerance, and whether its order may
//!   never come about. [`write_summary`] leaves out what that says of each sender, and [`write_beyond`] tells of other offsets and of
//!   clocks that are off, of each table what comes of oscillators that are so by 50 millionths.
//! - [`write_refused`] tells why the verdict refuses a table, by how many bit times, which advices there are, and the table that one plans.
//! - [`write_whole`] tells why a table is wrong as a whole, and [`write_unread`] why a text is refused, and what may stand there.
//! - [`FIELDS`], [`MISPLACED`], [`RANGE`] and [`SPELLING`] are what is said of a line that is refused, in a text of any kind.
//! - [`load`] with [`longest_bits`], [`spare`] and [`gap_bits`] are the figures of an accepted table that its verdict doesn't tell, and
//!   [`put_load`] puts a load.
//!
//! Each sentence is a definition with holes for its numbers: `specs/Accepted` with `Starts`, `Beyond`, `Refused`, `Advised`, `Wholes`, `Unread` with
//! `Forms`, over the figures of `specs/Figures` and the columns of `specs/Columns`, in which `specs/Senders`
//! has them. No writer takes memory.
#![tactic(auto)]

mod accepted;
mod advised;
mod beyond;
mod columns;
mod faults;
mod figures;
mod forms;
pub mod laws;
mod refused;
mod senders;
mod starts;
mod unread;
mod wholes;
mod wordings;

pub use accepted::{write_accepted, write_summary};
pub use beyond::write_beyond;
pub use faults::{FIELDS, MISPLACED, RANGE, SPELLING};
pub use figures::{gap_bits, load, longest_bits, put_load, spare};
pub use refused::write_refused;
pub use unread::write_unread;
pub use wholes::write_whole;
