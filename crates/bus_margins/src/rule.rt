//! The rules, and the room that each leaves.
ghost use Rattle.std.specs.Prelude.{◌≡◌, ◌≤◌, ◌^◌};
ghost use Rattle.bus_margins.specs.Rooms as rules;
ghost use Rattle.bus_margins.specs.inside.Telling as telling;

use crate::room::Room;
use crate::speaking::{sg_of, tg_of, ti_of};
use crate::times::{drop_of, least_time, most_time};
use bus_bounds::Bounds;
use bus_table::{Sender, Table, shortest};

/// A rule of one sender by itself, or with the first one.
#[derive(Clone, Copy)]
pub(crate) enum Rule {
    Whole,
    Drop,
    Waiting,
    Interval,
    Cycle,
}

/// A rule of each sender and each one behind it, of which neighbours tell the least room.
#[derive(Clone, Copy)]
pub(crate) enum PairRule {
    Turns,
    Opening,
    Joining,
}

/// The room that a rule leaves at a sender.
pub(crate) fn room_by(
    bounds: Bounds,
    table: &Table,
    first: &Sender,
    spoken: u64,
    rule: Rule,
    a: &Sender,
) -> Room
    requires spoken { spoken ≡ rules.least_spoken bounds table.now.senders }
    requires few { spoken ≤ 2 ^ 37 }
    ensures { result ≡ telling.room_by bounds table.now first.now rule a.now }
{
    let least_sg = least_time(bounds, sg_of(table));
    let most_tg = most_time(bounds, tg_of(a));
    let (other, need, have) = match rule {
        Rule::Whole => (None, drop_of(bounds), least_sg),
        Rule::Drop => (None, drop_of(bounds), least_time(bounds, tg_of(a))),
        Rule::Waiting => (
            Some(first.number()),
            most_tg + 2 * bounds.delay() + 1,
            least_sg,
        ),
        Rule::Interval => (
            None,
            most_time(bounds, ti_of(table)),
            least_time(bounds, shortest(a)) + least_sg + most_tg,
        ),
        Rule::Cycle => (
            None,
            most_time(bounds, ti_of(table)) + least_time(bounds, tg_of(a)),
            least_sg + spoken + most_tg,
        ),
    };
    Room {
        terminal: a.number(),
        other,
        need,
        have,
    }
}

/// The room that a rule leaves between two senders.
pub(crate) fn pair_room(
    bounds: Bounds,
    table: &Table,
    rule: PairRule,
    a: &Sender,
    b: &Sender,
) -> Room
    ensures { result ≡ telling.pair_room bounds table.now rule a.now b.now }
{
    let least_sg = least_time(bounds, sg_of(table));
    let most_sg = most_time(bounds, sg_of(table));
    let most_tg = most_time(bounds, tg_of(a));
    let delay = bounds.delay();
    let (need, have) = match rule {
        PairRule::Turns => (most_tg + 2 * delay + 1, least_time(bounds, tg_of(b))),
        PairRule::Opening => (
            most_sg + most_tg + 2 * delay + 1,
            least_sg + least_time(bounds, tg_of(b)),
        ),
        PairRule::Joining => (most_sg + delay, least_sg + least_time(bounds, tg_of(a))),
    };
    Room {
        terminal: a.number(),
        other: Some(b.number()),
        need,
        have,
    }
}

/// The room that the rule of cycles leaves at the first sender.
pub(crate) fn first_cycle_room(bounds: Bounds, table: &Table, first: &Sender, spoken: u64) -> Room
    requires spoken { spoken ≡ rules.least_spoken bounds table.now.senders }
    requires few { spoken ≤ 2 ^ 37 }
    ensures { result ≡ rules.first_cycle_room bounds table.now first.now }
{
    Room {
        terminal: first.number(),
        other: None,
        need: most_time(bounds, ti_of(table)) + least_time(bounds, tg_of(first)),
        have: most_time(bounds, sg_of(table)) + spoken + most_time(bounds, tg_of(first)),
    }
}

/// The room of a sender that is alone.
pub(crate) fn alone_room(bounds: Bounds, table: &Table, first: &Sender) -> Room
    ensures { result ≡ rules.alone_room bounds table.now first.now }
{
    Room {
        terminal: first.number(),
        other: None,
        need: bounds.delay(),
        have: least_time(bounds, sg_of(table)) + least_time(bounds, tg_of(first)),
    }
}

/// How many senders a rule doesn't speak of, from the first on.
pub(crate) fn left_out(rule: PairRule) -> usize
    ensures { result ≡ telling.left_out rule }
{
    match rule {
        PairRule::Turns => 1,
        PairRule::Opening | PairRule::Joining => 0,
    }
}
