//! Two channels of three: three senders send the same label with three extensions, and a voter takes the word that two agree on.
//!
//! A label is voted on where exactly three SEND lines of a table have it, each of another sender: these are its channels. In round `k` a
//! channel has the data words of its label and extension in the `k`-th transmission of its sender, and none where that is missing or
//! garbled. A round is voted where at least two channels have words. This voter and its text are this project's own.
//!
//! - [`write_votes`] writes the votes of a trace.
//! - [`width`] and [`vote`] are the vote of three lists of words: how many places it has, and what it is at each.
//! - [`laws`] has what callers may use of them: two equal lists fix the vote, and of a run each round below the
//!   number of messages is voted.
//!
//! No call takes memory. The definitions are in `specs/`: `Votes` (what two of three agree on), `Labels` (which labels are voted on),
//! `Rounds` (what a channel has in a round), `VoteTexts` (the text), and `VoteLaws`.
//!
//! # The order of work of a vote
//!
//! A label's rounds are written before the next label, and no memory is taken, so the transmissions of a channel can't be kept. The voted
//! labels come in ascending order by asking of each of the 4096 labels which lines of the table have it. The rounds of a label are found in
//! one of two ways, of which each is proved to give the same.
//!
//! Walks: three walks go over the list, one for each channel, and give the words of its sender's next transmission; none begins anew, and
//! the rounds end once two of the walks are over, since no later round is voted. What makes them short is told by two looks at the whole
//! list, before the first label: whether nothing in it is garbled, and, by terminal, how many places two of its transmissions stand apart
//! at least, in an array of one number for each terminal on the stack.
//!
//! Where nothing is garbled, a walk leaps by that number: in regular traffic, in which each sender has one transmission a cycle, it looks
//! at its own sender's transmissions and at hardly any other. Where something is garbled, a walk looks at each transmission and keeps the
//! greatest end so far; only its own sender's are then judged, by that end and by the next one. So a walk costs what its sender sends, or
//! the whole list, even where few of its messages have the label.
//!
//! Finds: one pass over the whole list, from transmission to transmission, finds the wordstrings of as many labels as there is room for, in
//! an array of 80,000 on the stack, 960 kilobytes: of each the place of its transmission, how many its terminal sent before, its label and
//! its terminal (`specs/inside/Finds.antt`). Garbled ones are left out: how far the transmissions before reach is kept along the pass. Then
//! the rounds of each of these labels are read from the array, by three readers, which look at the transmissions of their own channel and
//! at no other.
//!
//! A pass doesn't care what order the senders keep, nor how often two collide, and there are fewer than twice as many as wordstrings fill
//! arrays, and one. It takes each line of the memory in order, which a walk that leaps doesn't. A greater array means fewer passes, and
//! more finds of other labels to pass over for each label: at this size both take about as long.
//!
//! A label is looked for in a pass where there is room for its wordstrings, which are counted once by label, and where its walks would look
//! at eight transmissions or more for each of them, by the gaps of its three senders; so messages of 31 wordstrings, of which each has
//! every label of its sender, are walked over. That choice is no part of a proof: were there less room than was counted, the pass would say
//! so, and the labels would be walked over. A table of fewer than thirty SEND lines is walked over without counting.
#![tactic(auto)]

mod cursor;
mod finds;
mod hearing;
mod index;
mod label;
pub mod laws;
mod mark;
mod pace;
mod scan;
mod seen;
mod voting;
mod writing;

pub use voting::{vote, width};
pub use writing::write_votes;
