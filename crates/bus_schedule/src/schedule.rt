//! The list of the closed schedule.
ghost use Rattle.std.specs.Prelude.{◌≡◌, ◌+◌, ◌<◌, ◌≤◌, ◌++◌, ◌∷◌, [], IsTrue, IfOk, IfErr, OnOk};
ghost use Rattle.bus_strings.specs.Limits.{horizon_limit};
ghost use Rattle.bus_strings.specs.Marking.{greatest_end};
ghost use Rattle.bus_strings.specs.Messages.{bits};
ghost use Rattle.bus_strings.specs.Transmissions.{IsAscending};
ghost use Rattle.bus_table.specs.declared.mode.Mode.TheVariants.{Aperiodic, Periodic};
ghost use Rattle.bus_table.specs.Turns.{turn_order};
ghost use Rattle.bus_schedule.specs.Even.{are_even, messages_of, rounds};
ghost use Rattle.bus_schedule.specs.Closed.{sent_at, turns, turns_end, offset_turns, closed, closed_end};
ghost use Rattle.bus_schedule.specs.inside.Places.{AreInTurn};
ghost use Rattle.bus_schedule.specs.Limits.{longest_end, IsLimited};
ghost use Rattle.bus_schedule.specs.Settled.{Fails, witness_hands};
ghost use Rattle.bus_schedule.specs.declared.error.ScheduleError.TheVariants.{Memory};
ghost use Rattle.bus_regime.specs.Verdicts.{IsRefused};

use crate::dealt::{message_at, rounds};
use crate::end::limited_end;
use crate::error::ScheduleError;
use crate::laws::{closed_is_orderly, verdicts_are_exact, witnesses_have_schedules};
use crate::order::turn_places;
use bus_strings::{Message, Transmission, copy_message};
use bus_table::laws::table_is_valid;
use bus_table::{Hand, Mode, Sender, Table};
use std::alloc::{AllocError, Global};

/// Adds the turn of a sender, which starts at a moment, and gives the moment at which it has ended.
fn add_turn(
    alloc: Global,
    list: &mut Vec<Transmission>,
    sender: &Sender,
    message: &Message,
    moment: u64,
) -> Result<u64, AllocError>
    requires { moment < horizon_limit }
    ensures turn { OnOk result (list.new.items ≡ list.old.items ++ sent_at sender.now message.now moment ∷ []) }
    ensures end { IfOk result (λ end. end ≡ moment + bits message.now) }
{
    let turn = Transmission {
        moment,
        terminal: sender.number(),
        message: copy_message(alloc, message)?,
    };
    let end = turn.end();
    list.push(turn)?;
    Ok(end)
}

/// Adds the turns of an aperiodic round, which counts from a moment, and gives the moment at which the last of them has ended.
fn add_by_gaps(
    alloc: Global,
    list: &mut Vec<Transmission>,
    table: &Table,
    hands: &[Hand],
    places: &[usize],
    round: usize,
    mut from: u64,
) -> Result<u64, AllocError>
    requires even { IsTrue (are_even table.now hands.now) }
    requires places { AreInTurn table.now places.now }
    requires round { round < rounds hands.now }
    requires short { turns_end (messages_of hands.now) round (turn_order table.now) from ≤ longest_end }
    ensures turns { OnOk result (list.new.items ≡ list.old.items ++ turns (messages_of hands.now) round (turn_order table.now) from) }
    ensures end { IfOk result (λ end. end ≡ turns_end (messages_of hands.now) round (turn_order table.now) from) }
{
    let senders = table.senders();
    for place in places {
        let sender = &senders[*place];
        let message = message_at(table, hands, *place, round);
        from = add_turn(alloc, list, sender, message, from + u64::from(sender.tg()))?;
    }
    Ok(from)
}

/// The closed schedule of an aperiodic table, round by round.
fn by_gaps(alloc: Global, table: &Table, hands: &[Hand]) -> Result<Vec<Transmission>, AllocError>
    requires aperiodic { table.now.mode ≡ Aperiodic }
    requires even { IsTrue (are_even table.now hands.now) }
    requires short { closed_end table.now hands.now ≤ longest_end }
    ensures { IfOk result (λ list. list.items ≡ closed table.now hands.now) }
{
    let places = turn_places(alloc, table)?;
    let sg = u64::from(table.sg());
    let mut list = Vec::new(alloc);
    let mut from = 0;
    for round in 0..rounds(hands) {
        from = add_by_gaps(alloc, &mut list, table, hands, &places, round, from)? + sg;
    }
    Ok(list)
}

/// Adds the turns of a periodic round, whose interval begins at moment `base`.
fn add_by_offsets(
    alloc: Global,
    list: &mut Vec<Transmission>,
    table: &Table,
    hands: &[Hand],
    places: &[usize],
    round: usize,
    base: u64,
) -> Result<(), AllocError>
    requires even { IsTrue (are_even table.now hands.now) }
    requires places { AreInTurn table.now places.now }
    requires round { round < rounds hands.now }
    requires short { greatest_end (offset_turns (messages_of hands.now) round (turn_order table.now) base) ≤ longest_end }
    ensures { OnOk result (list.new.items ≡ list.old.items ++ offset_turns (messages_of hands.now) round (turn_order table.now) base) }
{
    let senders = table.senders();
    for place in places {
        let sender = &senders[*place];
        let message = message_at(table, hands, *place, round);
        add_turn(alloc, list, sender, message, base + u64::from(sender.at()))?;
    }
    Ok(())
}

/// The closed schedule of a periodic table, round by round. The starts of each round stand within its own interval, so that the
/// list ascends also where messages overlap.
fn by_offsets(alloc: Global, table: &Table, hands: &[Hand]) -> Result<Vec<Transmission>, AllocError>
    requires periodic { table.now.mode ≡ Periodic }
    requires even { IsTrue (are_even table.now hands.now) }
    requires short { closed_end table.now hands.now ≤ longest_end }
    ensures { IfOk result (λ list. list.items ≡ closed table.now hands.now) }
{
    let places = turn_places(alloc, table)?;
    let ti = u64::from(table.ti());
    let mut list = Vec::new(alloc);
    let mut base = 0;
    for round in 0..rounds(hands) {
        add_by_offsets(alloc, &mut list, table, hands, &places, round, base)?;
        base += ti;
    }
    Ok(list)
}

/// The closed schedule of a table, by its mode.
fn by_mode(alloc: Global, table: &Table, hands: &[Hand]) -> Result<Vec<Transmission>, AllocError>
    requires even { IsTrue (are_even table.now hands.now) }
    requires short { closed_end table.now hands.now ≤ longest_end }
    ensures { IfOk result (λ list. list.items ≡ closed table.now hands.now) }
{
    match table.mode() {
        Mode::Aperiodic => by_gaps(alloc, table, hands),
        Mode::Periodic => by_offsets(alloc, table, hands),
    }
}

/// The closed schedule of a table, accepted or not, and even hands: who starts when, by gaps and messages alone in aperiodic
/// mode, by offsets alone in periodic mode. It ascends by moment, then terminal.
///
/// With the hands of the witness of a table that isn't accepted, the list isn't what the bus does up to the closed end, or
/// two of its transmissions overlap.
///
/// `TooLong` comes exactly where the closed end is above [`crate::error::LONGEST_END`], also where no memory is left, and so
/// never with the hands of a witness. `Memory` says that memory was refused, and nothing of the schedule.
pub fn closed(
    alloc: Global,
    table: &Table,
    hands: &[Hand],
) -> Result<Vec<Transmission>, ScheduleError>
    requires even { IsTrue (are_even table.now hands.now) }
    ensures closed { IfOk result (λ list. list.items ≡ closed table.now hands.now) }
    ensures ordered { IfOk result (λ list. IsAscending list.items) }
    ensures limit { IsLimited (closed_end table.now hands.now) result }
    ensures refused { IsRefused table.now → hands.now ≡ witness_hands table.now
        → IfOk result (λ list. Fails table.now hands.now list.items) }
    ensures witness { hands.now ≡ witness_hands table.now → IfErr result (λ error. error ≡ Memory) }
{
    table_is_valid(table);
    closed_is_orderly();
    verdicts_are_exact();
    witnesses_have_schedules();
    limited_end(table, hands)?;
    let list = by_mode(alloc, table, hands)?;
    Ok(list)
}
