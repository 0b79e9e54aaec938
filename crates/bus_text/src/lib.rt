//! The rules that the texts which people write share, of lines and fields: the table text, the messages text and the cable text.
//!
//! A text is split into physical lines at each line feed, numbered from 1. Lines of blanks alone, and lines whose
//! first other byte is `#`, are skipped. Every other line is its fields, the longest runs of bytes that aren't
//! blanks; blanks are space, tab and carriage return.
//!
//! - [`Lines`] goes over the lines of a text that aren't skipped, [`Fields`] over the fields of one;
//!   [`fields`] collects them where they are asked for by place; [`first_feed`] finds the end of a line.
//! - [`plain_decimal`], [`hexadecimal`] and [`capital_value`] read numbers, [`leading_digits`] those in front of a text;
//!   [`hex_digit`], [`three_digits`] and [`four_digits`] write hexadecimal digits in capitals.
//! - [`headed_lines`] reads the first line of a text, and gives those behind it.
//! - [`Reason`] says why a line is refused, [`LineFault`] why it wasn't read, and [`TextError`] why a text wasn't.
//!
//! The definitions are in `specs/`: `Lines` and `Fields` (what a text is cut into), `Numbers` and `Digits`,
//! `Refusals` (which line is refused and why), `AllOf` (reading each of a list), `Headers` (the first line of a text), `Canonical` (the one
//! spelling that writers use). What callers may use of them beside the contracts are the `pub` modules of `proofs/`.
#![tactic(auto)]

mod cursor;
mod digits;
mod error;
mod fault;
mod headers;
mod leading;
mod lines;
mod numbers;
mod reason;
mod split;

pub use cursor::{Line, Lines};
pub use digits::{NO_CAPITAL, capital_digit, capital_value, four_digits, hex_digit, three_digits};
pub use error::TextError;
pub use fault::LineFault;
pub use headers::headed_lines;
pub use leading::leading_digits;
pub use lines::{
    field_at, fields, fields_from, first_feed, is_at, is_skipped, line_after, take_fields,
};
pub use numbers::{hexadecimal, plain_decimal};
pub use reason::Reason;
pub use split::Fields;
