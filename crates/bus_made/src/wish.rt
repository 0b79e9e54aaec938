//! Wishes of how old what is known of a sender may be.
ghost use Rattle.std.specs.Prelude.{◌≡◌, ◌≤◌, ◌^◌};
ghost use Rattle.bus_table.specs.declared.mode.Mode.TheVariants.{Aperiodic};
ghost use Rattle.bus_margins.specs.Rooms as rooms;
ghost use Rattle.bus_made.specs.Wishes as lacks;

use bus_bounds::Bounds;
use bus_margins::margins;
use bus_table::{Sender, Table, longest, turn_at, turn_places};

/// How many nanoseconds a bit time has.
const BIT_TIME: u64 = 500;

/// The wish that what is known of a sender is never older.
#[derive(Clone, Copy, Debug)]
pub struct Wish {
    /// The terminal number of the sender.
    pub terminal: u8,
    /// How old at most, in nanoseconds.
    pub age: u64,
}

/// What is lacking of a wish.
#[derive(Clone, Copy, Debug)]
pub struct Lack {
    /// The terminal number of the sender.
    pub terminal: u8,
    /// The least worst age of what is known of it, in nanoseconds.
    pub least: u128,
    /// The age that is wished.
    pub wished: u64,
}

/// The first wish of this terminal.
fn wish_of(wishes: &[Wish], number: u8) -> Option<Wish>
    ensures { result ≡ lacks.wish_of wishes.now number }
{
    for wish in wishes {
        if wish.terminal == number {
            return Some(*wish);
        }
    }
    None
}

/// What is lacking of a wish, where the age is this.
fn lack_of(terminal: u8, age: u128, wish: Option<Wish>) -> Option<Lack>
    ensures { result ≡ lacks.lack_of terminal age wish }
{
    let wish = wish?;
    if u128::from(wish.age) >= age {
        return None;
    }
    Some(Lack {
        terminal,
        least: age,
        wished: wish.age,
    })
}

/// The one of which more is lacking, the former where of neither.
fn worse(known: Option<Lack>, lack: Option<Lack>) -> Option<Lack>
    ensures { result ≡ lacks.worse known lack }
{
    match (known, lack) {
        (None, lack) => lack,
        (known, None) => known,
        (Some(known), Some(lack)) => {
            let was = known.least.saturating_sub(u128::from(known.wished));
            let is = lack.least.saturating_sub(u128::from(lack.wished));
            Some(if was < is { lack } else { known })
        }
    }
}

/// The wish of which a made table lacks most, the first in turn order of several; None where it meets all.
pub(crate) fn lacking(table: &Table, bounds: Bounds, wishes: &[Wish]) -> Option<Lack>
    requires mode { table.now.mode ≡ Aperiodic }
    ensures { result ≡ lacks.lacking bounds table.now wishes.now }
{
    let places = turn_places(table);
    let most = margins(table, bounds).most;
    let mut known = None;
    for k in 0..table.senders().len() {
        let sender = turn_at(table, &places, k);
        let message = bounds.long(BIT_TIME * u64::from(longest(sender)));
        let age = u128::from(most) + u128::from(message) + u128::from(bounds.delay());
        let wish = wish_of(wishes, sender.number());
        known = worse(known, lack_of(sender.number(), age, wish));
    }
    known
}
