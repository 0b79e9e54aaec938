//! The limits of what is sent, and the bit times that words and quiet take: all of this project's profile. Contracts
//! have them as the words of `specs/Limits`.

/// Every moment of a transmission is below this number of bit times, and a trace goes no further.
pub const HORIZON_LIMIT: u64 = 1_099_511_627_776;

/// The greatest terminal number; the least is 1.
pub const MOST_TERMINAL: u8 = 128;

/// How many terminal numbers there are with 0, which is none: so many entries has what is looked up by the number of a terminal.
pub const TERMINALS: usize = MOST_TERMINAL as usize + 1;

/// The most wordstrings of a message; the least is 1.
pub const MOST_STRINGS: usize = 31;

/// The most data words of a wordstring; the least is 0.
pub const MOST_WORDS: usize = 256;

/// The bit times of a word.
pub const WORD_BITS: u32 = 20;

/// The quiet bit times between two wordstrings of a message.
pub const INNER_GAP: u32 = 4;
