//! Where the drop-out schedule ends.
ghost use Rattle.std.specs.Prelude.{◌≡◌, ◌+◌, ◌≤◌, ◌^◌, [], nat_lt, length, get_or, IsTrue, IfOk, if◌then◌else◌};
ghost use Rattle.std.specs.List.{sum_by};
ghost use Rattle.bus_strings.specs.Messages.{bits};
ghost use Rattle.bus_table.specs.declared.mode.Mode.TheVariants.{Aperiodic};
ghost use Rattle.bus_table.specs.Hands.{are_hands};
ghost use Rattle.bus_schedule.specs.Even.{messages_of};
ghost use Rattle.bus_schedule.specs.Limits.{IsLimited};
ghost use Rattle.bus_schedule.specs.Live.{live};
ghost use Rattle.bus_dropout.specs.DropOut.{drop_end};

use crate::left::most_messages;
use bus_schedule::laws::live_rounds;
use bus_schedule::{ScheduleError, within_limit};
use bus_strings::bits;
use bus_table::{Hand, Sender, Table};

/// The terminal gap and the message of a sender in a round, in bit times, or 0 where its messages are spent.
fn turn_length(sender: &Sender, hand: &Hand, round: usize) -> u64
    ensures turn { result ≡ if nat_lt round (length hand.now.messages)
        then sender.now.tg + bits (get_or hand.now.messages round []) else 0 }
    ensures most { result ≤ 2 ^ 33 }
{
    if round < hand.messages.len() {
        u64::from(sender.tg()) + u64::from(bits(&hand.messages[round]))
    } else {
        0
    }
}

/// The terminal gaps and messages of a round, together in bit times.
fn round_length(table: &Table, hands: &[Hand], round: usize) -> u64
    requires hands { IsTrue (are_hands table.now.senders hands.now) }
    ensures sum { result ≡ sum_by (λ sender. sender.tg + bits (get_or (messages_of hands.now sender.number) round []))
        (live table.now (messages_of hands.now) round) }
    ensures most { result ≤ 2 ^ 40 }
{
    let mut sum = 0;
    for (k, sender) in table.senders().iter().enumerate() {
        sum += turn_length(sender, &hands[k], round);
    }
    sum
}

/// The end of the drop-out schedule, in bit times: the moment at which its last transmission ends, and 0 where there is none. It takes no
/// memory.
pub fn drop_end(table: &Table, hands: &[Hand]) -> u128
    requires aperiodic { table.now.mode ≡ Aperiodic }
    requires hands { IsTrue (are_hands table.now.senders hands.now) }
    ensures value { result ≡ drop_end table.now hands.now }
{
    live_rounds();
    let sg = u128::from(table.sg());
    let mut from = 0;
    let mut end = 0;
    for round in 0..most_messages(hands) {
        end = from + u128::from(round_length(table, hands, round));
        from = end + sg;
    }
    end
}

/// The end, unless it is above [`bus_schedule::LONGEST_END`].
pub(crate) fn limited_end(table: &Table, hands: &[Hand]) -> Result<u64, ScheduleError>
    requires aperiodic { table.now.mode ≡ Aperiodic }
    requires hands { IsTrue (are_hands table.now.senders hands.now) }
    ensures end { IfOk result (λ end. end ≡ drop_end table.now hands.now) }
    ensures limit { IsLimited (drop_end table.now hands.now) result }
{
    within_limit(drop_end(table, hands))
}
