//! The made table.
ghost use Rattle.std.specs.Prelude.{◌≡◌, length, IfOk, IfSome, IsNone, IsTrue};
ghost use Rattle.std.specs.List.{All};
ghost use Rattle.bus_table.specs.Ranges.{is_tg};
ghost use Rattle.bus_table.specs.Turns.{turn_order};
ghost use Rattle.bus_table.specs.Valid.{is_valid};
ghost use Rattle.bus_table.specs.declared.mode.Mode.TheVariants.{Aperiodic};
ghost use Rattle.bus_design.specs.Others as others;
ghost use Rattle.bus_design.specs.Bests.{AreNoneFor, IsMade};

use crate::designing::design;
use bus_bounds::Bounds;
use bus_table::ranges::LEAST_TI;
use bus_table::{Listener, Mode, Sender, Table, turn_at, turn_places};
use std::alloc::{AllocError, Global};

/// The sender with another terminal gap. Fails only where memory runs out.
pub fn with_gap(alloc: Global, sender: &Sender, tg: u32) -> Result<Sender, AllocError>
    requires { IsTrue (is_tg tg) }
    ensures { IfOk result (λ made. made ≡ others.at_gap tg sender.now) }
{
    let sends = Vec::from_slice(alloc, sender.sends())?;
    let takes = Vec::from_slice(alloc, sender.takes())?;
    Ok(Sender::new(sender.number(), tg, sender.at(), sends, takes).unwrap())
}

/// The senders in turn order with these terminal gaps.
fn with_gaps(alloc: Global, table: &Table, gaps: &[u32]) -> Result<Vec<Sender>, AllocError>
    requires count { length gaps.now ≡ length table.now.senders }
    requires range { All (λ x. IsTrue (is_tg x)) gaps.now }
    ensures { IfOk result (λ made. made.items ≡ others.with_gaps (turn_order table.now) gaps.now) }
{
    let places = turn_places(table);
    let mut made = Vec::with_capacity(alloc, gaps.len())?;
    for k in 0..gaps.len() {
        made.push(with_gap(alloc, turn_at(table, &places, k), gaps[k])?)?;
    }
    Ok(made)
}

/// An equal listener.
fn listener_of(alloc: Global, listener: &Listener) -> Result<Listener, AllocError>
    ensures { IfOk result (λ made. made ≡ listener.now) }
{
    let takes = Vec::from_slice(alloc, listener.takes())?;
    Ok(Listener::new(listener.number(), takes).unwrap())
}

/// Equal listeners, in order. Fails only where memory runs out.
pub fn listeners_of(alloc: Global, listeners: &[Listener]) -> Result<Vec<Listener>, AllocError>
    ensures { IfOk result (λ made. made.items ≡ listeners.now) }
{
    let mut made = Vec::with_capacity(alloc, listeners.len())?;
    for listener in listeners {
        made.push(listener_of(alloc, listener)?)?;
    }
    Ok(made)
}

/// The table with these gaps: the same senders in turn order and the same listeners, at the least transmit interval.
fn table_of(alloc: Global, table: &Table, sg: u32, gaps: &[u32]) -> Result<Table, AllocError>
    requires count { length gaps.now ≡ length table.now.senders }
    requires range { All (λ x. IsTrue (is_tg x)) gaps.now }
    requires valid { IsTrue (is_valid (others.made_table table.now sg gaps.now)) }
    ensures { IfOk result (λ made. made ≡ others.made_table table.now sg gaps.now) }
{
    let senders = with_gaps(alloc, table, gaps)?;
    let listeners = listeners_of(alloc, table.listeners())?;
    Ok(Table::new(Mode::Aperiodic, LEAST_TI, sg, senders, listeners).unwrap())
}

/// Makes the aperiodic table of the same senders in turn order and the same listeners whose order comes from any start within these
/// bounds, and whose longest cycle is the least; of several the one with the greatest synchronization gap, and then the least terminal
/// gaps. Its transmit interval is 1000 bit times. None exactly where no such table has level `Any`. Fails only where memory runs out.
pub fn design_any(alloc: Global, table: &Table, bounds: Bounds) -> Result<Option<Table>, AllocError>
    requires { table.now.mode ≡ Aperiodic }
    ensures made { IfOk result (λ found. IfSome found (IsMade bounds table.now)) }
    ensures none { IfOk result (λ found. IsNone found → AreNoneFor bounds table.now) }
{
    let _ranges = bounds.delay();
    let _valid = table.sg();
    match design(alloc, table, bounds)? {
        Some(best) => Ok(Some(table_of(alloc, table, best.sg, &best.gaps)?)),
        None => Ok(None),
    }
}
