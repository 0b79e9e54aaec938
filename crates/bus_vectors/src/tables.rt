//! The table of a number.
ghost use Rattle.std.specs.Prelude.{◌≡◌, ◌+◌, ◌≤◌, IfOk, length};
ghost use Rattle.bus_strings.specs.Limits.{most_terminal};
ghost use Rattle.bus_vectors.specs.Made as made;
ghost use Rattle.bus_vectors.specs.Made.{made_send, made_sender, made_senders, made_take, made_listener, made_cycle};
ghost use Rattle.bus_vectors.specs.Made.{made_table};

use bus_strings::limits::MOST_TERMINAL;
use bus_table::{Listener, Mode, SendLine, Sender, Table, TakeLine};
use bus_words::{Ext, Label};
use std::alloc::{AllocError, Global};

/// The synchronization gap of every made table, in bit times.
const GAP: u32 = 300;

/// The bit times of a shortest message of every made sender: one label word and 30 data words.
const SHORTEST: u32 = 620;

/// How many senders there are in the table of a number: 2 to 31.
pub fn sender_count(number: u32) -> u8
    ensures count { result ≡ made.sender_count number }
    ensures most { result ≤ 31 }
{
    (2 + number % 30) as u8
}

/// The label of sender `i`.
fn label(i: u8) -> Label
    ensures { result ≡ 256 + i }
{
    Label::new(256 + u16::from(i)).unwrap()
}

/// The wordstring of sender `i`.
pub(crate) fn send_line(i: u8) -> SendLine
    ensures { result ≡ made_send i }
{
    SendLine {
        label: label(i),
        ext: Ext::new(i % 16).unwrap(),
        least: 30,
        most: 40,
    }
}

/// Sender `i`.
fn sender(alloc: Global, i: u8) -> Result<Sender, AllocError>
    requires { (1 ≤ i) × (i ≤ 31) }
    ensures { IfOk result (λ sender. sender ≡ made_sender i) }
{
    let mut sends = Vec::with_capacity(alloc, 1)?;
    sends.push(send_line(i))?;
    let tg = 8 + 4 * (u32::from(i) - 1);
    Ok(Sender::new(i, tg, 0, sends, Vec::new(alloc)).unwrap())
}

/// The senders.
fn senders(alloc: Global, count: u8) -> Result<Vec<Sender>, AllocError>
    requires { count ≤ 31 }
    ensures { IfOk result (λ senders. senders.items ≡ made_senders count) }
{
    let mut senders = Vec::with_capacity(alloc, usize::from(count))?;
    for i in 1..count + 1 {
        senders.push(sender(alloc, i)?)?;
    }
    Ok(senders)
}

/// What the listener takes of sender `i`.
fn take_line(i: u8) -> TakeLine
    ensures { result ≡ made_take i }
{
    TakeLine {
        label: label(i),
        ext: None,
        first: 0,
        count: 4,
    }
}

/// The listener, which takes from each of so many senders.
fn listener(alloc: Global, count: u8) -> Result<Listener, AllocError>
    requires { count ≤ 31 }
    ensures { IfOk result (λ listener. listener ≡ made_listener count) }
{
    let mut takes = Vec::with_capacity(alloc, usize::from(count))?;
    for i in 1..count + 1 {
        let line = take_line(i);
        // The checker knows of the option in the line only where it is named.
        let _ext = line.ext;
        takes.push(line)?;
    }
    Ok(Listener::new(MOST_TERMINAL, takes).unwrap())
}

/// The shortest cycle of these senders.
fn cycle(senders: &[Sender]) -> u32
    requires { length senders.now ≤ most_terminal }
    ensures { result ≡ made_cycle senders.now }
{
    let mut bits = GAP;
    for sender in senders {
        bits += sender.tg() + SHORTEST;
    }
    bits
}

/// The table of a number.
pub fn table(alloc: Global, number: u32) -> Result<Table, AllocError>
    ensures { IfOk result (λ table. table ≡ made_table number) }
{
    let count = sender_count(number);
    let senders = senders(alloc, count)?;
    let mut listeners = Vec::with_capacity(alloc, 1)?;
    listeners.push(listener(alloc, count)?)?;
    let ti = cycle(&senders);
    Ok(Table::new(Mode::Aperiodic, ti, GAP, senders, listeners).unwrap())
}
