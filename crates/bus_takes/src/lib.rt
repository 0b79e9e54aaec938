//! What is odd about the TAKE and SEND lines of a table, in sentences.
//!
//! A verdict judges when terminals speak, and not whether anybody takes what is sent: a slip in a label gives a table that is accepted and
//! a terminal that receives nothing. [`write_takes`] says of each TAKE line that nothing feeds why nothing comes of it; of each that is fed
//! how many of its words a SEND line never has, and how many only in longer wordstrings; and in one sentence which SEND lines nobody takes.
//! Of a table in which nothing of this is so it writes nothing. What feeds a TAKE line, and what that means for the received words, is
//! `bus_feeds`'.
//!
//! [`put_matrix`] puts who takes words of whom as a table in HTML, for pages.
//!
//! The definitions are `takes_text` in `specs/Takes`, whose sentences are in `src/wordings.rt`, and `matrix_text` in `specs/Matrix`. No call
//! takes memory.
#![tactic(auto)]

mod lines;
mod matrix;
mod takes;
mod untaken;
mod wordings;

pub use matrix::put_matrix;
pub use takes::{put_takes, write_takes};
