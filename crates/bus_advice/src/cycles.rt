//! Advices on an aperiodic table whose shortest cycle is below the transmit interval: by closed forms from what it lacks.
ghost use Rattle.std.specs.Prelude.{◌≡◌, ◌++◌, ◌==◌, IfOk, OnOk, Some, slice_get};
ghost use Rattle.std.specs.List.{flat_map, list_any};
ghost use Rattle.std.specs.Option.{option_map, option_to_list};
ghost use Rattle.bus_strings.specs.Members.{In};
ghost use Rattle.bus_table.specs.Turned.{AreTurned};
ghost use Rattle.bus_table.specs.Turns.{turn_order};
ghost use Rattle.bus_table.specs.declared.mode.Mode.TheVariants.{Aperiodic};
ghost use Rattle.bus_advice.specs.declared.advice.Advice.TheVariants.{Gap, Interval, Least, Synchronization};
ghost use Rattle.bus_advice.specs.Advices as advised;
ghost use Rattle.bus_advice.specs.inside.InnerGaps.{IsShort};

use crate::advice::Advice;
use crate::plans::periodic_interval;
use bus_strings::limits::WORD_BITS;
use bus_table::ranges::{LEAST_TI, MOST_SG, MOST_TG};
use bus_table::{MOST_SENDERS, SendLine, Sender, Table, turn_at, turn_places};
use std::alloc::{AllocError, Global};

/// The greatest transmit interval that the shortest cycle allows.
fn lesser_interval(table: &Table, deficit: u32) -> Option<u32>
    requires short { IsShort table.now deficit }
    ensures { result ≡ advised.lesser_interval table.now }
{
    let ti = table.ti().saturating_sub(deficit);
    if ti >= LEAST_TI { Some(ti) } else { None }
}

/// The least synchronization gap that makes the shortest cycle long enough.
fn greater_synchronization(table: &Table, deficit: u32) -> Option<u32>
    requires short { IsShort table.now deficit }
    ensures { result ≡ advised.greater_synchronization table.now }
{
    let sg = table.sg() + deficit;
    if sg <= MOST_SG { Some(sg) } else { None }
}

/// Whether some sender has this terminal gap.
fn is_taken(senders: &[Sender], tg: u32) -> bool
    ensures { result ≡ list_any (λ sender. sender.tg == tg) senders.now }
{
    for sender in senders {
        if sender.tg() == tg {
            return true;
        }
    }
    false
}

/// The least terminal gap of a sender that makes the shortest cycle long enough and that no other sender has.
fn greater_gap(table: &Table, deficit: u32, sender: &Sender) -> Option<u32>
    requires short { IsShort table.now deficit }
    requires among { In sender.now table.now.senders }
    ensures { result ≡ advised.greater_gap table.now sender.now }
{
    let senders = table.senders();
    let end = table.sg().min(MOST_TG + 1);
    for tg in sender.tg() + deficit..end {
        if !is_taken(senders, tg) {
            return Some(tg);
        }
    }
    None
}

/// The least number of data words to send at least, on the line at this place, that makes the shortest cycle long enough.
fn greater_least(
    table: &Table,
    deficit: u32,
    sender: &Sender,
    place: usize,
    line: &SendLine,
) -> Option<u16>
    requires short { IsShort table.now deficit }
    requires among { In sender.now table.now.senders }
    requires stands { slice_get sender.now.sends place ≡ Some line.now }
    ensures { result ≡ advised.greater_least table.now sender.now.number place line.now }
{
    let _valid = table.ti();
    let least = u32::from(line.least) + (deficit + WORD_BITS - 1) / WORD_BITS;
    if least <= u32::from(line.most) {
        Some(least as u16)
    } else {
        None
    }
}

/// Adds an advice, where there is one.
pub(crate) fn add(advices: &mut Vec<Advice>, advice: Option<Advice>) -> Result<(), AllocError>
    ensures { OnOk result (advices.new.items ≡ advices.old.items ++ option_to_list advice) }
{
    match advice {
        Some(advice) => {
            advices.push(advice)?;
            Ok(())
        }
        None => Ok(()),
    }
}

/// The advice on the terminal gap of a sender.
fn gap_advice(table: &Table, deficit: u32, sender: &Sender) -> Option<Advice>
    requires short { IsShort table.now deficit }
    requires among { In sender.now table.now.senders }
    ensures { result ≡ option_map (Gap sender.now.number) (advised.greater_gap table.now sender.now) }
{
    let terminal = sender.number();
    greater_gap(table, deficit, sender).map(|tg| Advice::Gap { terminal, tg })
}

/// Adds the advices on terminal gaps, in turn order.
fn add_gaps(
    advices: &mut Vec<Advice>,
    table: &Table,
    places: &[usize; MOST_SENDERS],
    deficit: u32,
) -> Result<(), AllocError>
    requires turned { AreTurned table.now places.now }
    requires short { IsShort table.now deficit }
    ensures { OnOk result (advices.new.items ≡ advices.old.items ++ flat_map (advised.gap_advice table.now) (turn_order table.now)) }
{
    for k in 0..table.senders().len() {
        let sender = turn_at(table, places, k);
        add(advices, gap_advice(table, deficit, sender))?;
    }
    Ok(())
}

/// Adds the advices on the SEND lines of a sender.
fn add_lines(
    advices: &mut Vec<Advice>,
    table: &Table,
    deficit: u32,
    sender: &Sender,
) -> Result<(), AllocError>
    requires short { IsShort table.now deficit }
    requires among { In sender.now table.now.senders }
    ensures { OnOk result (advices.new.items ≡ advices.old.items ++ advised.least_advices table.now sender.now) }
{
    let terminal = sender.number();
    let sends = sender.sends();
    for place in 0..sends.len() {
        let least = greater_least(table, deficit, sender, place, &sends[place]);
        let line = place + 1;
        add(
            advices,
            least.map(|least| Advice::Least {
                terminal,
                line,
                least,
            }),
        )?;
    }
    Ok(())
}

/// Adds the advices on SEND lines, the senders in turn order.
fn add_least(
    advices: &mut Vec<Advice>,
    table: &Table,
    places: &[usize; MOST_SENDERS],
    deficit: u32,
) -> Result<(), AllocError>
    requires turned { AreTurned table.now places.now }
    requires short { IsShort table.now deficit }
    ensures { OnOk result (advices.new.items ≡ advices.old.items ++ flat_map (advised.least_advices table.now) (turn_order table.now)) }
{
    for k in 0..table.senders().len() {
        add_lines(advices, table, deficit, turn_at(table, places, k))?;
    }
    Ok(())
}

/// The advices on an aperiodic table whose shortest cycle is by so many bit times below the transmit interval. Fails only where memory
/// runs out.
pub(crate) fn cycle_advices(
    alloc: Global,
    table: &Table,
    deficit: u32,
) -> Result<Vec<Advice>, AllocError>
    requires short { IsShort table.now deficit }
    ensures { IfOk result (λ advices. advices.items ≡ advised.advices_in Aperiodic table.now) }
{
    let places = turn_places(table);
    let mut advices = Vec::new(alloc);
    add(
        &mut advices,
        lesser_interval(table, deficit).map(|ti| Advice::Interval { ti }),
    )?;
    add(
        &mut advices,
        greater_synchronization(table, deficit).map(|sg| Advice::Synchronization { sg }),
    )?;
    add_gaps(&mut advices, table, &places, deficit)?;
    add_least(&mut advices, table, &places, deficit)?;
    add(
        &mut advices,
        periodic_interval(table).map(|ti| Advice::AsPeriodic { ti }),
    )?;
    Ok(advices)
}
