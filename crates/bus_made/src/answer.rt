//! The answer.
ghost use Rattle.std.specs.Prelude.{◌≡◌, IfOk};
ghost use Rattle.bus_table.specs.Turns.{turn_order};
ghost use Rattle.bus_table.specs.declared.mode.Mode.TheVariants.{Aperiodic};
ghost use Rattle.bus_best.specs.Blames as blames;
ghost use Rattle.bus_design.specs.Others as others;
ghost use Rattle.bus_made.specs.Answers as answers;
ghost use Rattle.bus_made.specs.Answers.{answer_of, Means};
ghost use Rattle.bus_made.specs.Orders.{ordered};

use crate::order::{Order, freed};
use crate::wish::{Lack, Wish, lacking};
use bus_best::{Blame, to_blame};
use bus_bounds::Bounds;
use bus_design::{design_any, speakers_of};
use bus_table::{Table, place};
use std::alloc::{AllocError, Global};

/// What is made of a table.
#[derive(Debug, Drop)]
pub enum Answer {
    /// The table with level `Any` and the least longest cycle, which meets all wishes.
    Made(Table),
    /// No table of these senders in this order has this level.
    Infeasible {
        /// The number of the terminal that is told by its place, and 0 where none is.
        terminal: u8,
        /// What is to blame.
        blame: Blame,
    },
    /// A wish is lacking, of all wishes the one that lacks most.
    Late(Lack),
}

/// The terminal number of the sender at a place in turn order, and 0 behind the last.
fn number_at(table: &Table, k: usize) -> u8
    ensures { result ≡ answers.number_at (turn_order table.now) k }
{
    if k < table.senders().len() {
        place(table, k)
    } else {
        0
    }
}

/// The number of the terminal that is to blame.
fn blamed(table: &Table, blame: Blame) -> u8
    ensures { result ≡ answers.blamed (turn_order table.now) blame }
{
    match blame {
        Blame::Lasts { place, .. } => number_at(table, place),
        Blame::Gap(needed) | Blame::Waiting(Some(needed)) => number_at(table, needed.place),
        Blame::Waiting(None) | Blame::Whole { .. } | Blame::Interval => 0,
    }
}

/// What is to blame where nothing is made of a table.
fn infeasible(alloc: Global, table: &Table, bounds: Bounds) -> Result<Answer, AllocError>
    ensures value { IfOk result (λ answer. answer ≡ answers.infeasible bounds table.now) }
    ensures meaning { IfOk result (λ answer. blames.Means bounds (others.speakers_of table.now)
        (blames.blame_of bounds (others.speakers_of table.now))) }
{
    let speakers = speakers_of(alloc, table)?;
    let blame = to_blame(bounds, &speakers);
    Ok(Answer::Infeasible {
        terminal: blamed(table, blame),
        blame,
    })
}

/// What is made of a table in its own order.
fn answer_in(
    alloc: Global,
    table: &Table,
    wishes: &[Wish],
    bounds: Bounds,
) -> Result<Answer, AllocError>
    requires { table.now.mode ≡ Aperiodic }
    ensures exact { IfOk result (λ answer. answer ≡ answers.answer_in bounds wishes.now table.now) }
    ensures meaning { IfOk result (Means bounds wishes.now table.now) }
{
    let _ranges = bounds.delay();
    let _valid = table.sg();
    let Some(made) = design_any(alloc, table, bounds)? else {
        return infeasible(alloc, table, bounds);
    };
    match lacking(&made, bounds, wishes) {
        Some(lack) => Ok(Answer::Late(lack)),
        None => Ok(Answer::Made(made)),
    }
}

/// Makes of an aperiodic table the one of the same senders in this order and the same listeners, with the least transmit interval, that has
/// level `Any` within these bounds and the least longest cycle; or tells what is to blame, or of which wish most is lacking. Of several
/// wishes of a terminal the first counts, and one of a terminal that doesn't send counts for nothing. Fails only where memory runs out.
pub fn design(
    alloc: Global,
    table: &Table,
    order: Order,
    wishes: &[Wish],
    bounds: Bounds,
) -> Result<Answer, AllocError>
    requires { table.now.mode ≡ Aperiodic }
    ensures exact { IfOk result (λ answer. answer ≡ answer_of bounds order wishes.now table.now) }
    ensures meaning { IfOk result (Means bounds wishes.now (ordered order table.now)) }
{
    match order {
        Order::Kept => answer_in(alloc, table, wishes, bounds),
        Order::Free => answer_in(alloc, &freed(alloc, table)?, wishes, bounds),
    }
}
