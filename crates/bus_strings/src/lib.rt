//! Messages and transmissions: what a terminal sends at one start, its pulses on the bus, and which of the
//! transmissions of a list are garbled. And the messages text, which gives the data words of messages to come.
//!
//! - [`Message`] is 1 to 31 [`Wordstring`]s, [`Transmission`] one on the bus.
//!   [`bits`] says how long a message is, [`is_on`] when it is on, and [`garbled`] and [`Marks`] which transmissions are garbled.
//! - [`Payloads`] are the items of a messages text: [`read_messages`] gives them, or the line that is refused and why, and
//!   [`write_messages`] writes their canonical text. [`item_lines`] and [`read_item`] read them item by item, and with [`put_payloads`]
//!   their lines stand in a text of another grammar.
//! - [`put_microseconds`] puts a number of bit times in microseconds, and [`put_share`] a share in tenths of a percent.
//!
//! The definitions are in `specs/`: `Messages`, `Pulses` and `Transmissions` for what is sent, `Microseconds`, `Shares`, `Items`, `Grammar`
//! (which texts stand for which items), `Reading` (what a text reads as, or which line is refused) and `Canonical` for the messages text.
#![tactic(auto)]

mod item;
pub mod laws;
pub mod limits;
mod message;
mod microseconds;
mod overlap;
mod payload;
mod pulses;
mod reading;
mod shares;
mod transmission;
mod wordstring;
mod writing;

pub use message::{Message, copy_message};
pub use microseconds::{put_microseconds, put_microseconds_unit};
pub use overlap::{Marks, garbled, is_by_moment, overlaps};
pub use payload::{Payload, Payloads};
pub use pulses::{bits, is_on, pulse, pulse_count};
pub use reading::{MessagesError, item_lines, read_item, read_messages};
pub use shares::{put_share, tenths};
pub use transmission::Transmission;
pub use wordstring::{SHORT, Wordstring};
pub use writing::{put_payloads, write_messages};
