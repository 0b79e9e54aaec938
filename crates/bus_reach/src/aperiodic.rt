//! The tolerance of an aperiodic table: its terminal gaps, and the synchronization gap, stand far enough apart for it.
ghost use Rattle.std.specs.Prelude.{◌≡◌, ℕ, ◌+◌, ◌*◌, ◌^◌, ◌<◌, ◌≤◌, ◌↔◌, ◌||◌, nat_le, length, IsNone, IsTrue, IfSome};
ghost use Rattle.std.specs.List.{list_all};
ghost use Rattle.bus_reach.specs.Tolerance as reach;

use bus_table::{Sender, Table};

/// Whether `b` is greater than `a` by more than twice `d`.
fn is_apart(d: u64, a: u64, b: u64) -> bool
    requires d { d ≤ 2 ^ 32 }
    requires a { a ≤ 2 ^ 32 }
    ensures { result ≡ reach.is_apart d a b }
{
    a + 2 * d < b
}

/// Whether each longer terminal gap is greater than this one by more than twice `d`.
fn are_apart(d: u64, senders: &[Sender], gap: u64) -> bool
    requires d { d ≤ 2 ^ 32 }
    requires gap { gap ≤ 2 ^ 32 }
    ensures { result ≡ list_all (λ b. nat_le b.tg gap || reach.is_apart d gap b.tg) senders.now }
{
    for b in senders {
        let other = u64::from(b.tg());
        if gap < other && !is_apart(d, gap, other) {
            return false;
        }
    }
    true
}

/// Whether a sender leaves room for delays up to `d`.
fn leaves_room(d: u64, sg: u64, senders: &[Sender], a: &Sender) -> bool
    ensures { result ≡ reach.leaves_room d sg senders.now a.now }
{
    let gap = u64::from(a.tg());
    d <= gap && is_apart(d, gap, sg) && are_apart(d, senders, gap)
}

/// Whether an aperiodic table that the verdict accepts bears delays up to `d` bit times.
pub(crate) fn bears(table: &Table, d: u64) -> bool
    ensures { result ≡ reach.lengths_bear table.now d }
{
    let senders = table.senders();
    if senders.len() == 1 {
        return true;
    }
    let sg = u64::from(table.sg());
    for a in senders {
        if !leaves_room(d, sg, senders, a) {
            return false;
        }
    }
    true
}

/// The greatest number such that `b` is greater than `a` by more than twice it.
pub(crate) fn room_between(a: u64, b: u64) -> u64
    requires { a < b }
    ensures { (d : ℕ) → (d ≤ result) ↔ (a + 2 * d < b) }
{
    (b - a - 1) / 2
}

/// The greatest number up to `most` such that each longer terminal gap is greater than this one by more than twice it.
fn room_above(senders: &[Sender], gap: u64, most: u64) -> u64
    ensures { (d : ℕ) → (d ≤ result) ↔ ((d ≤ most) × IsTrue (list_all (λ b. nat_le b.tg gap || reach.is_apart d gap b.tg) senders.now)) }
{
    let mut room = most;
    for b in senders {
        let other = u64::from(b.tg());
        if gap < other {
            room = room.min(room_between(gap, other));
        }
    }
    room
}

/// The tolerance of an aperiodic table that the verdict accepts: the greatest delay that it bears, in bit times. None exactly where
/// there is one sender, which bears every delay. It takes no memory.
pub(crate) fn tolerance(table: &Table) -> Option<u64>
    ensures alone { IsNone result ↔ (length table.now.senders ≡ 1) }
    ensures greatest { IfSome result (λ most. (d : ℕ) → (d ≤ most) ↔ IsTrue (reach.lengths_bear table.now d)) }
{
    let senders = table.senders();
    if senders.len() == 1 {
        return None;
    }
    let sg = u64::from(table.sg());
    let mut room: u64 = 256;
    for a in senders {
        let gap = u64::from(a.tg());
        room = room_above(senders, gap, room.min(gap).min(room_between(gap, sg)));
    }
    Some(room)
}
