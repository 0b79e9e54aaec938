//! Sentences that tell numbers, each one text with holes, and the one function that puts them.
//!
//! A sentence is a constant, and a definition cites it: so its words stand once, and a contract says which numbers they are told with.
//! A hole is a byte that says what stands there, and a digit for which number that tells:
//!
//! | hole | what stands there |
//! |---|---|
//! | `#0` | the number: `1030` |
//! | `$0` | `s`, unless the number is 1: `#0 sender$0` is `1 sender` or `2 senders` |
//! | `@0` | a time of so many bit times: `1030 bit times (515 µs)` |
//! | `~0` | about such a time: `about 1030 bit times` |
//! | `^0` | a label, in three hexadecimal digits: `0A1` |
//! | `_0` | an extension: its hexadecimal digit, or `*` of a number that has none, for every extension |
//!
//! ```
//! const APART: &[u8] = b"Terminal #0 is @2 from terminal #1.\n";
//! say(text, sink, APART, &[terminal, sender, bits]);
//! ```
#![tactic(auto)]

mod labels;
mod sentence;
mod times;

pub use sentence::say;
pub use times::put_time;
