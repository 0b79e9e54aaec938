//! Whether the order of an aperiodic table comes about by itself.
ghost use Rattle.std.specs.Prelude.{◌≡◌, ◌+◌, nat_le};
ghost use Rattle.bus_table.specs.declared.mode.Mode.TheVariants.{Aperiodic};
ghost use Rattle.bus_table.specs.Lengths as lengths;
ghost use Rattle.bus_table.specs.Timers as timers;
ghost use Rattle.bus_regime.specs.Starting as starting;

use bus_table::{Sender, Table, greatest_gap, longest, shortest};

/// Whether a sender waits and sends at least as long from one start to the next as the transmit interval takes.
fn is_free(table: &Table, sender: &Sender) -> bool
    ensures { result ≡ nat_le table.now.ti (table.now.sg + sender.now.tg + lengths.shortest sender.now) }
{
    u64::from(table.ti())
        <= u64::from(table.sg()) + u64::from(sender.tg()) + u64::from(shortest(sender))
}

/// Whether an aperiodic table starts itself: TI is at most SG, the sender's TG and its shortest message together, for every sender.
/// Then, without delays and as long as messages are left, its order comes about whenever its terminals are powered up
/// (`bus_reach::laws::any_start_settles`). The rule is this project's.
pub fn starts_itself(table: &Table) -> bool
    requires aperiodic { table.now.mode ≡ Aperiodic }
    ensures { result ≡ starting.starts_itself table.now }
{
    for sender in table.senders() {
        if !is_free(table, sender) {
            return false;
        }
    }
    true
}

/// Whether a synchronization gap, the greatest terminal gap and the sender's longest message are over when the transmit interval is.
fn is_over(table: &Table, gap: u32, sender: &Sender) -> bool
    requires gap { gap ≡ timers.greatest_gap table.now.senders }
    ensures { result ≡ nat_le (table.now.sg + timers.greatest_gap table.now.senders + lengths.longest sender.now) table.now.ti }
{
    u64::from(table.sg()) + u64::from(gap) + u64::from(longest(sender)) <= u64::from(table.ti())
}

/// Whether the senders of an aperiodic table never part once they all start at once: TI is at least SG, the greatest TG and any message
/// together. Then there is a power-up with which all of them collide in every cycle, as long as messages are left
/// (`bus_reach::laws::some_never_part`). The rule is this project's.
pub fn never_parts(table: &Table) -> bool
    requires aperiodic { table.now.mode ≡ Aperiodic }
    ensures { result ≡ starting.never_parts table.now }
{
    let gap = greatest_gap(table.senders());
    for sender in table.senders() {
        if !is_over(table, gap, sender) {
            return false;
        }
    }
    true
}
