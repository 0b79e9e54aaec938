//! Tries of a terminal alone and of its stretches.
ghost use Rattle.std.specs.Prelude.{◌+◌, ◌≤◌};

use bus_hands::read_hands;
use bus_medium::Terminal;
use bus_strings::{Message, bits, is_on};
use bus_table::{Hand, read_table};
use bus_timers::{Core, CounterCore, DeadlineCore, JumpCore, Timing};
use std::alloc::{AllocError, Global};
use std::process::Abort;
use std::test::Fail;

/// Terminal 128 sends two wordstrings, of two and of three words.
const TABLE: &[u8] = b"TABLE 1
MODE aperiodic
TI 1000
SG 300
SENDER 128 TG 20
SEND 0A1 1 1 1
SEND 0A2 1 2 2
";

/// Twice: its pulses are 40 and 60 bit times long.
const TWO_MESSAGES: &[u8] = b"MESSAGES 1
MSG 128 : 0000 : 0000 0000
MSG 128 : 0000 : 0000 0000
";

const TIMING: Timing = Timing {
    ti: 1000,
    sg: 300,
    tg: 20,
    quiet: 300,
    due: 0,
};

/// The hand of the two messages.
fn hand(alloc: Global) -> Result<Hand, Fail> {
    let table = read_table(alloc, TABLE)?;
    let mut hands = read_hands(alloc, &table, TWO_MESSAGES)?;
    Ok(hands.pop().ok_or("hand")?)
}

/// When the terminal starts, alone on its bus, which then has exactly the pulses of its message.
fn starts(
    rt: &impl Abort,
    alloc: Global,
    terminal: &mut Terminal<CounterCore>,
    sent: &Message,
) -> Result<Vec<u32>, AllocError> {
    let mut starts: Vec<u32> = Vec::new(alloc);
    for t in 0..2100u32 {
        if terminal.decide() {
            starts.push(t)?;
        }
        let now = match starts.last() {
            None => false,
            Some(start) => is_on(sent, t.saturating_sub(*start)),
        };
        let carrier = terminal.is_on();
        assert!(rt; carrier == now, "at {t}");
        terminal.pass(carrier);
    }
    Ok(starts)
}

/// The first start comes a terminal gap behind the settled start, and the second when the transmit interval has
/// elapsed. The terminal shows its number, and its messages of 104 bit times.
#[test]
fn a_terminal_alone_sends_its_messages(rt: HostRuntime) -> Result<(), Fail> {
    let mut terminal = Terminal::new(CounterCore::settled(TIMING), hand(rt.alloc())?);
    assert!(rt; terminal.number() == 128);
    let other = hand(rt.alloc())?;
    let [sent, _] = other.messages.as_slice() else {
        return Err("two messages".into());
    };
    assert!(rt; bits(sent) == 104);
    let starts = starts(&rt, rt.alloc(), &mut terminal, sent)?;
    assert!(rt; starts.as_slice() == [20, 1020].as_slice());
    assert!(rt; terminal.sent() == 2);
    Ok(())
}

/// Passes the terminal, alone on its bus, up to its next change, and tells how many bit times that took.
fn next_change<C: JumpCore>(terminal: &mut Terminal<C>) -> Option<u64>
    requires room { 5000 ≤ C.room terminal.old.core }
    ensures { C.room terminal.old.core ≤ C.room terminal.new.core + 5000 }
{
    terminal.decide();
    let bits = match terminal.stretch() {
        Some(bits) => bits,
        None => terminal.quiet_wait()?,
    };
    if bits == 0 || bits > 5000 {
        return None;
    }
    let carrier = terminal.is_on();
    terminal.pass_many(carrier, bits);
    Some(bits)
}

/// A wait, a pulse, the quiet behind it and another pulse, twice. Then nothing is left that it waits for.
#[test]
fn a_terminal_alone_jumps_from_change_to_change(rt: HostRuntime) -> Result<(), Fail> {
    let mut terminal = Terminal::new(DeadlineCore::settled(TIMING), hand(rt.alloc())?);
    let first = [
        next_change(&mut terminal),
        next_change(&mut terminal),
        next_change(&mut terminal),
        next_change(&mut terminal),
    ];
    assert!(rt; first == [Some(20), Some(40), Some(4), Some(60)]);
    let second = [
        next_change(&mut terminal),
        next_change(&mut terminal),
        next_change(&mut terminal),
        next_change(&mut terminal),
        next_change(&mut terminal),
    ];
    assert!(rt; second == [Some(896), Some(40), Some(4), Some(60), None]);
    assert!(rt; (terminal.sent(), terminal.moves()) == (2, 8));
    Ok(())
}

/// The length of the first message that a terminal shows, and its number.
#[test]
fn a_terminal_shows_its_messages(rt: HostRuntime) -> Result<(), Fail> {
    let hand = hand(rt.alloc())?;
    assert!(rt; hand.messages.len() == 2);
    let terminal = Terminal::new(CounterCore::settled(TIMING), hand);
    assert!(rt; (terminal.number(), bits(terminal.message(0))) == (128, 104));
    Ok(())
}
