//! Where the closed schedule ends.
ghost use Rattle.std.specs.Prelude.{◌≡◌, ◌+◌, ◌^◌, ◌<◌, ◌≤◌, [], get_or, max, IsTrue, IfOk};
ghost use Rattle.std.specs.List.{sum_by};
ghost use Rattle.bus_strings.specs.Marking.{greatest_end};
ghost use Rattle.bus_strings.specs.Messages.{bits};
ghost use Rattle.bus_table.specs.declared.mode.Mode.TheVariants.{Aperiodic, Periodic};
ghost use Rattle.bus_schedule.specs.Even.{are_even, messages_of, rounds};
ghost use Rattle.bus_schedule.specs.Closed.{offset_turns, closed_end};
ghost use Rattle.bus_schedule.specs.Limits.{IsLimited};

use crate::dealt::{message_at, rounds};
use crate::error::{LONGEST_END, ScheduleError};
use bus_strings::bits;
use bus_table::{Hand, Mode, Table};

/// The terminal gaps and messages of a round, together in bit times.
fn round_length(table: &Table, hands: &[Hand], round: usize) -> u64
    requires even { IsTrue (are_even table.now hands.now) }
    requires round { round < rounds hands.now }
    ensures sum { result ≡ sum_by (λ sender. sender.tg + bits (get_or (messages_of hands.now sender.number) round [])) table.now.senders }
    ensures most { result ≤ 2 ^ 40 }
{
    let mut sum = 0;
    for (k, sender) in table.senders().iter().enumerate() {
        let message = message_at(table, hands, k, round);
        sum += u64::from(sender.tg()) + u64::from(bits(message));
    }
    sum
}

/// The closed end of an aperiodic table: each round ends one synchronization gap before the next begins.
fn end_by_gaps(table: &Table, hands: &[Hand]) -> u128
    requires aperiodic { table.now.mode ≡ Aperiodic }
    requires even { IsTrue (are_even table.now hands.now) }
    ensures { result ≡ closed_end table.now hands.now }
{
    let sg = u128::from(table.sg());
    let mut from = 0;
    let mut end = 0;
    for round in 0..rounds(hands) {
        end = from + u128::from(round_length(table, hands, round));
        from = end + sg;
    }
    end
}

/// The greater of two moments.
fn later(a: u128, b: u128) -> u128
    ensures { result ≡ max a b }
{
    if a < b { b } else { a }
}

/// The moment at which the last message of a periodic round ends, whose interval begins at moment `base`.
fn round_end(table: &Table, hands: &[Hand], round: usize, base: u128) -> u128
    requires even { IsTrue (are_even table.now hands.now) }
    requires round { round < rounds hands.now }
    requires base { base ≤ 2 ^ 100 }
    ensures { result ≡ greatest_end (offset_turns (messages_of hands.now) round table.now.senders base) }
{
    let mut end = 0;
    for (k, sender) in table.senders().iter().enumerate() {
        let message = message_at(table, hands, k, round);
        let start = base + u128::from(sender.at());
        end = later(end, start + u128::from(bits(message)));
    }
    end
}

/// The closed end of a periodic table, also where messages of one round end behind those of a later one.
fn end_by_offsets(table: &Table, hands: &[Hand]) -> u128
    requires periodic { table.now.mode ≡ Periodic }
    requires even { IsTrue (are_even table.now hands.now) }
    ensures { result ≡ closed_end table.now hands.now }
{
    let ti = u128::from(table.ti());
    let mut base = 0;
    let mut end = 0;
    for round in 0..rounds(hands) {
        end = later(end, round_end(table, hands, round, base));
        base += ti;
    }
    end
}

/// The closed end of a table and even hands, in bit times: the greatest moment at which a transmission of the closed schedule
/// ends, and 0 where there is none. It takes no memory.
pub fn closed_end(table: &Table, hands: &[Hand]) -> u128
    requires even { IsTrue (are_even table.now hands.now) }
    ensures value { result ≡ closed_end table.now hands.now }
{
    match table.mode() {
        Mode::Aperiodic => end_by_gaps(table, hands),
        Mode::Periodic => end_by_offsets(table, hands),
    }
}

/// The end of a schedule, unless it is above [`LONGEST_END`].
pub fn within_limit(end: u128) -> Result<u64, ScheduleError>
    ensures same { IfOk result (λ given. given ≡ end) }
    ensures limit { IsLimited end result }
{
    if end > u128::from(LONGEST_END) {
        return Err(ScheduleError::TooLong { end });
    }
    Ok(end as u64)
}

/// The closed end, unless it is above [`LONGEST_END`].
pub(crate) fn limited_end(table: &Table, hands: &[Hand]) -> Result<u64, ScheduleError>
    requires even { IsTrue (are_even table.now hands.now) }
    ensures end { IfOk result (λ end. end ≡ closed_end table.now hands.now) }
    ensures limit { IsLimited (closed_end table.now hands.now) result }
{
    within_limit(closed_end(table, hands))
}
