//! The values of signals.
ghost use Rattle.std.specs.Prelude.{◌≡◌, ◌&&◌};
ghost use Rattle.std.specs.List.{list_any};
ghost use Rattle.bus_dump.specs.Signals as signals;
ghost use Rattle.bus_dump.specs.inside.Walks.{with_word};
ghost use Rattle.bus_dump.specs.inside.TimerWalks.{scene_of};

use crate::scene::{Scene, has_carrier};
use crate::sender_timers::Elapsed;
use crate::shown::Seen;
use crate::signal::Signal;

/// What is told of a terminal that has no timers here.
const NOTHING: Elapsed = Elapsed {
    terminal: 0,
    interval: false,
    synchronization: false,
    gap: false,
    may: false,
};

/// The value of a signal.
#[derive(Clone, Copy, Debug, PartialEq, Eq)]
pub(crate) enum Value {
    /// Of one bit.
    Bit(bool),
    /// A number.
    Number(u64),
    /// Nothing is there.
    Floating,
    /// More than one is there.
    Unknown,
}

impl Value {
    /// Whether it is that value too.
    pub fn is_same(self, other: Value) -> bool
        ensures { result ≡ signals.is_same self other }
    {
        match (self, other) {
            (Value::Bit(a), Value::Bit(b)) => a == b,
            (Value::Number(a), Value::Number(b)) => a == b,
            (Value::Floating, Value::Floating) | (Value::Unknown, Value::Unknown) => true,
            _ => false,
        }
    }
}

/// Whether a transmission has a pulse.
fn is_on(seen: &Seen) -> bool
    ensures { result ≡ signals.is_on seen.now }
{
    seen.shown.is_some()
}

/// Whether a transmission is of a terminal and has a pulse.
fn is_on_lane(seen: &Seen, terminal: u8) -> bool
    ensures { result ≡ (signals.is_of terminal seen.now && signals.is_on seen.now) }
{
    seen.terminal == terminal && is_on(seen)
}

/// Whether a transmission has a pulse in the sync of a word.
fn is_sync(seen: &Seen) -> bool
    ensures { result ≡ signals.is_sync seen.now }
{
    match seen.shown {
        Some(shown) => shown.sync,
        None => false,
    }
}

/// The word on the bus with one more transmission.
fn with_word(value: Value, seen: &Seen) -> Value
    ensures { result ≡ with_word value seen.now }
{
    match (value, seen.shown) {
        (value, None) => value,
        (Value::Floating, Some(shown)) => Value::Number(u64::from(shown.word)),
        (_, Some(_)) => Value::Unknown,
    }
}

/// The word on the bus.
fn word(seen: &[Seen]) -> Value
    ensures { result ≡ signals.word_value (signals.words seen.now) }
{
    let mut value = Value::Floating;
    for one in seen {
        value = with_word(value, one);
    }
    value
}

/// The label word that a transmission has on the bus.
fn shown_label(seen: &Seen) -> Value
    ensures { result ≡ signals.shown_label seen.now }
{
    match seen.shown {
        Some(shown) => Value::Number(u64::from(shown.label)),
        None => Value::Floating,
    }
}

/// The label word that the terminal has on the bus.
fn label(seen: &[Seen], terminal: u8) -> Value
    ensures { result ≡ signals.label terminal seen.now }
{
    for one in seen {
        if is_on_lane(one, terminal) {
            return shown_label(one);
        }
    }
    Value::Floating
}

/// The number of the transmission whose span it is.
fn message(seen: &[Seen], terminal: u8) -> Value
    ensures { result ≡ signals.message terminal seen.now }
{
    for one in seen {
        if one.terminal == terminal {
            return Value::Number(one.number);
        }
    }
    Value::Floating
}

/// Whether the terminal has a pulse.
fn pulse(seen: &[Seen], terminal: u8) -> bool
    ensures { result ≡ list_any (λ s. signals.is_of terminal s && signals.is_on s) seen.now }
{
    seen.iter().any(|one| is_on_lane(one, terminal))
}

/// Whether a transmission of the terminal is garbled.
fn garbled(seen: &[Seen], terminal: u8) -> bool
    ensures { result ≡ list_any (λ s. signals.is_of terminal s && s.garbled) seen.now }
{
    seen.iter()
        .any(|one| one.terminal == terminal && one.garbled)
}

/// Whether some transmission is in the sync of a word.
fn sync(seen: &[Seen]) -> bool
    ensures { result ≡ list_any signals.is_sync seen.now }
{
    seen.iter().any(|one| is_sync(one))
}

/// What the timers of a terminal tell, of these.
pub(crate) fn elapsed(timers: &[Elapsed], terminal: u8) -> Elapsed
    ensures { result ≡ signals.elapsed terminal timers.now }
{
    for one in timers {
        if one.terminal == terminal {
            return *one;
        }
    }
    NOTHING
}

/// The value of a signal in a scene.
pub(crate) fn value_of(signal: Signal, scene: &Scene) -> Value
    ensures { result ≡ signals.value signal (scene_of scene.now) }
{
    let seen = scene.seen.as_slice();
    match signal {
        Signal::Carrier => Value::Bit(has_carrier(seen)),
        Signal::Overlap => Value::Bit(seen.len() > 1),
        Signal::Sync => Value::Bit(sync(seen)),
        Signal::Breach => Value::Bit(scene.breach),
        Signal::Word => word(seen),
        Signal::Pulse(terminal) => Value::Bit(pulse(seen, terminal)),
        Signal::Garbled(terminal) => Value::Bit(garbled(seen, terminal)),
        Signal::Label(terminal) => label(seen, terminal),
        Signal::Message(terminal) => message(seen, terminal),
        Signal::Interval(terminal) => Value::Bit(
            elapsed(scene.timers.as_slice(), terminal).interval,
        ),
        Signal::Synchronization(terminal) => {
            Value::Bit(elapsed(scene.timers.as_slice(), terminal).synchronization)
        }
        Signal::Gap(terminal) => Value::Bit(elapsed(scene.timers.as_slice(), terminal).gap),
        Signal::May(terminal) => Value::Bit(elapsed(scene.timers.as_slice(), terminal).may),
    }
}
