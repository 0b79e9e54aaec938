//! A sender on the cable.
ghost use Rattle.bus_propagation.specs.inside.Turns.{EndsInterval};

use crate::timers::Timers;
use bus_strings::Message;
use bus_timers::Timing;

/// A sender on the cable: what it sends, and what it has heard.
#[derive(Drop)]
pub struct Seat {
    /// The number of its terminal.
    pub terminal: u8,
    /// The numbers by which its timers run.
    pub timing: Timing,
    /// Its messages, in the order of their starts.
    pub messages: Vec<Message>,
    /// How many of them it has begun.
    pub sent: usize,
    /// Its timers after what it has heard for certain.
    pub timers: Timers,
    /// Before this place of the list it has heard all to the end.
    pub cursor: usize,
    /// It doesn't start before this moment. None where no message is left.
    pub next: Option<u64>,
}

/// Where the transmit interval of a sender elapses, before which it doesn't start, whatever it hears. None where no message is left.
pub fn interval_end(seat: &Seat) -> Option<u64>
    ensures { EndsInterval result seat.now }
{
    if seat.sent < seat.messages.len() {
        Some(seat.timers.due.saturating_sub(seat.timing.quiet as u64))
    } else {
        None
    }
}
