//! The lines of a stream.
ghost use Rattle.std.specs.Prelude.{◌≡◌, ◌<◌, codes, length};
ghost use Rattle.std.specs.Str.{bytes_eq};
ghost use Rattle.bus_text.specs.Entries.{texts};
ghost use Rattle.bus_stream.specs.Items as items;
ghost use Rattle.bus_stream.specs.Items.{Gives, item_of, head};

use crate::fields::{bounded, fields, is_plain};
use crate::message::{are_words, have_parity, message};
use crate::reason::StreamReason;
use bus_strings::Message;
use bus_strings::limits::MOST_TERMINAL;
use bus_text::{LineFault, field_at, fields_from};
use std::alloc::Global;

/// The greatest moment, in nanoseconds: 126 years.
pub const MOST_TIME: u64 = 4_000_000_000_000_000_000;

/// The first line.
const HEAD: &[u8] = b"STREAM 1";

const TX: &[u8] = b"TX";

const TIME: &[u8] = b"TIME";

const GAP: &[u8] = b"GAP";

/// What a line says. Moments are nanoseconds, from any beginning, at most [`MOST_TIME`].
#[derive(Drop)]
pub enum Item {
    /// A terminal started a message.
    Sent {
        /// When.
        time: u64,
        /// Its number, 1 to [`MOST_TERMINAL`].
        terminal: u8,
        /// What it sends.
        message: Message,
    },
    /// All that began before a moment is told.
    Told(u64),
    /// All that began before `from` is told, and all that will from `to` on; what began in between may lack.
    Lost {
        /// The first moment of the stretch.
        from: u64,
        /// The first one behind it.
        to: u64,
    },
}

/// Whether a line is the first of a stream.
pub fn is_head(line: &[u8]) -> bool
    ensures { result ≡ bytes_eq line.now head }
{
    line == HEAD
}

/// A line of a transmission.
fn sent(alloc: Global, fields: &[&[u8]]) -> Result<Item, LineFault<StreamReason>>
    ensures { Gives result (items.sent_in (texts fields.now)) }
{
    if fields.len() < 4 {
        return Err(LineFault::Refused(StreamReason::Fields));
    }
    let (time, terminal, words) = (
        field_at(fields, 1),
        field_at(fields, 2),
        fields_from(fields, 3),
    );
    if !is_plain(time) || !is_plain(terminal) || !are_words(words) {
        return Err(LineFault::Refused(StreamReason::Spelling));
    }
    if !have_parity(words) {
        return Err(LineFault::Refused(StreamReason::Parity));
    }
    let Some(time) = bounded(time, 0, MOST_TIME) else {
        return Err(LineFault::Refused(StreamReason::Range));
    };
    let Some(terminal) = bounded(terminal, 1, u64::from(MOST_TERMINAL)) else {
        return Err(LineFault::Refused(StreamReason::Range));
    };
    let Some(message) = message(alloc, words)? else {
        return Err(LineFault::Refused(StreamReason::Range));
    };
    Ok(Item::Sent {
        time,
        terminal: terminal as u8,
        message,
    })
}

/// A line of a moment up to which all is told.
fn told(fields: &[&[u8]]) -> Result<Item, LineFault<StreamReason>>
    ensures { Gives result (items.told_in (texts fields.now)) }
{
    if fields.len() != 2 {
        return Err(LineFault::Refused(StreamReason::Fields));
    }
    let time = field_at(fields, 1);
    if !is_plain(time) {
        return Err(LineFault::Refused(StreamReason::Spelling));
    }
    match bounded(time, 0, MOST_TIME) {
        Some(time) => Ok(Item::Told(time)),
        None => Err(LineFault::Refused(StreamReason::Range)),
    }
}

/// A line of a stretch of which anything may lack.
fn lost(fields: &[&[u8]]) -> Result<Item, LineFault<StreamReason>>
    ensures { Gives result (items.lost_in (texts fields.now)) }
{
    if fields.len() != 4 {
        return Err(LineFault::Refused(StreamReason::Fields));
    }
    let (from, to) = (field_at(fields, 1), field_at(fields, 2));
    if !is_plain(from) || !is_plain(to) || field_at(fields, 3).is_empty() {
        return Err(LineFault::Refused(StreamReason::Spelling));
    }
    let Some(from) = bounded(from, 0, MOST_TIME) else {
        return Err(LineFault::Refused(StreamReason::Range));
    };
    let Some(to) = bounded(to, 0, MOST_TIME) else {
        return Err(LineFault::Refused(StreamReason::Range));
    };
    if to < from {
        return Err(LineFault::Refused(StreamReason::Order));
    }
    Ok(Item::Lost { from, to })
}

/// A line by its fields.
fn by_fields(alloc: Global, fields: &[&[u8]]) -> Result<Item, LineFault<StreamReason>>
    requires { 0 < length fields.now }
    ensures { Gives result (items.fields_item (texts fields.now)) }
{
    let keyword = field_at(fields, 0);
    if keyword == TX {
        sent(alloc, fields)
    } else if keyword == TIME {
        told(fields)
    } else if keyword == GAP {
        lost(fields)
    } else {
        Err(LineFault::Refused(StreamReason::Keyword))
    }
}

/// What a line behind the first says, which is given without its line feed, or why it is refused: whether it may come is for
/// [`Place::after`](crate::Place::after) to say.
pub fn read_item(alloc: Global, line: &[u8]) -> Result<Item, LineFault<StreamReason>>
    ensures { Gives result (item_of line.now) }
{
    let fields = fields(alloc, line)?;
    by_fields(alloc, &fields)
}
