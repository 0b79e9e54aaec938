//! How far a cable reaches, and whether a table bears it.
ghost use Rattle.std.specs.Prelude.{◌≡◌, IsTrue, map};
ghost use Rattle.bus_regime.specs.Verdicts.{verdict_of, is_accepted};
ghost use Rattle.bus_cable.specs.Cables.{place_on, wakes_on};
ghost use Rattle.bus_diagnosis.specs.Reaches as reaches;

use bus_cable::Cable;
use bus_propagation::distance;
use bus_reach::{bears, tolerance};
use bus_table::{Listener, Mode, Sender, Table};

/// A sender of a table and a terminal of it, and how far they are apart.
#[derive(Clone, Copy, Debug, PartialEq, Eq)]
pub struct Pair {
    /// The sender.
    pub sender: u8,
    /// The terminal, a sender or a listener.
    pub terminal: u8,
    /// How far they are apart on the cable, in bit times.
    pub bits: u64,
}

/// How far a cable reaches.
#[derive(Clone, Copy, Debug, PartialEq, Eq)]
pub struct Reach {
    /// Of the pairs of a sender and a terminal of the table that are farthest apart, the first in table order; terminals of the number 0
    /// where none are apart.
    pub pair: Pair,
    /// When the last sender wakes, in bit times from the settled start.
    pub wake: u64,
    /// The mode of the table.
    pub mode: Mode,
    /// The greatest delay that the table bears, or None where it has one sender.
    pub tolerance: Option<u64>,
    /// Whether the table bears the cable and the wakes.
    pub borne: bool,
}

/// The farther of two pairs, and the first where they are as far.
fn farther(found: Pair, pair: Pair) -> Pair
    ensures { result ≡ reaches.farther found pair }
{
    if found.bits < pair.bits { pair } else { found }
}

/// The farther of a pair and that of a sender and a terminal of these numbers.
fn with_terminal(cable: &Cable, found: Pair, sender: u8, terminal: u8) -> Pair
    ensures { result ≡ reaches.farther found (reaches.pair_of (place_on cable.now) sender terminal) }
{
    let bits = distance(cable.place(sender), cable.place(terminal));
    farther(
        found,
        Pair {
            sender,
            terminal,
            bits,
        },
    )
}

/// The farthest of a pair and those of a sender and each sender.
fn with_senders(cable: &Cable, mut found: Pair, sender: u8, others: &[Sender]) -> Pair
    ensures { result ≡ reaches.farthest found (map (λ other. reaches.pair_of (place_on cable.now) sender other.number) others.now) }
{
    for other in others {
        found = with_terminal(cable, found, sender, other.number());
    }
    found
}

/// The farthest of a pair and those of a sender and each listener.
fn with_listeners(cable: &Cable, mut found: Pair, sender: u8, listeners: &[Listener]) -> Pair
    ensures { result ≡ reaches.farthest found (map (λ other. reaches.pair_of (place_on cable.now) sender other.number) listeners.now) }
{
    for listener in listeners {
        found = with_terminal(cable, found, sender, listener.number());
    }
    found
}

/// The farthest pair of a sender and a terminal of a table.
fn farthest_pair(table: &Table, cable: &Cable) -> Pair
    ensures { result ≡ reaches.farthest_pair table.now (place_on cable.now) }
{
    let mut found = Pair {
        sender: 0,
        terminal: 0,
        bits: 0,
    };
    for sender in table.senders() {
        found = with_senders(cable, found, sender.number(), table.senders());
        found = with_listeners(cable, found, sender.number(), table.listeners());
    }
    found
}

/// When the last of these senders wakes.
fn last_wake(cable: &Cable, senders: &[Sender]) -> u64
    ensures { result ≡ reaches.last_wake (wakes_on cable.now) senders.now }
{
    let mut last = 0;
    for sender in senders {
        last = cable.wake(sender.number()).max(last);
    }
    last
}

/// Whether an accepted table bears terminals so far apart and wakes so late.
fn is_borne(table: &Table, bits: u64, wake: u64) -> bool
    requires { IsTrue (is_accepted (verdict_of table.now)) }
    ensures { result ≡ reaches.is_borne table.now bits wake }
{
    match table.mode() {
        Mode::Aperiodic => bears(table, bits) && bears(table, wake),
        Mode::Periodic => bears(table, bits) && wake == 0,
    }
}

/// How far a cable reaches, and whether an accepted table bears it.
pub(crate) fn reach_of(table: &Table, cable: &Cable) -> Reach
    requires { IsTrue (is_accepted (verdict_of table.now)) }
    ensures { result ≡ reaches.reach_of table.now cable.now }
{
    let pair = farthest_pair(table, cable);
    let wake = last_wake(cable, table.senders());
    Reach {
        pair,
        wake,
        mode: table.mode(),
        tolerance: tolerance(table),
        borne: is_borne(table, pair.bits, wake),
    }
}
