//! A drill: the input that a number makes is run, and told in one line.
ghost use Rattle.std.specs.Prelude.{◌≡◌, ◌++◌, ◌≤◌, IfOk, IfErr, decimal};
ghost use Rattle.bus_outer.specs.Sinks.{WritesText};
ghost use Rattle.bus_outer.specs.Texts.{Adds};
ghost use Rattle.bus_vectors.specs.Made.{most_number};
ghost use Rattle.bus_command.specs.Acts.{Ends};
ghost use Rattle.bus_command.specs.Outside.{sink_seen};
ghost use Rattle.bus_command.specs.Readers.{no_source};
ghost use Rattle.bus_command.specs.declared.outcome.Outcome.TheVariants.{Done, NoMemory};
ghost use Rattle.bus_tool.specs.Drills.{drill_line};
ghost use Rattle.bus_tool.specs.inside.Drilled.{IsDrilled, line_of};

use crate::laws::drills_are_accepted;
use crate::refusal::Outcome;
use crate::run::refuse_schedule;
use bus_audit::count_garbled;
use bus_command::after_writing;
use bus_filter::count_received;
use bus_outer::{Sink, TextBuffer, WriteFault};
use bus_schedule::run_settled;
use bus_timers::DeadlineCore;
use bus_vectors::{make_hands, round_count, sender_count};
use std::alloc::Global;

/// What a drill found.
#[derive(Clone, Copy, Debug)]
pub struct DrillFigures {
    /// The number that made the input.
    pub number: u32,
    /// How many senders there are.
    pub senders: u8,
    /// How many messages each of them has.
    pub rounds: u32,
    /// How many messages were sent.
    pub messages: usize,
    /// The moment at which the last of them ended.
    pub end: u64,
    /// How many were garbled.
    pub collided: u64,
    /// How many received lines there are.
    pub received: u128,
}

/// Runs the input of a number. Fails only where memory runs out.
fn drilled(alloc: Global, number: u32) -> Result<DrillFigures, Outcome>
    requires { number ≤ most_number }
    ensures found { IfOk result (λ drilled. IsDrilled drilled number) }
    ensures only { IfErr result (λ outcome. outcome ≡ NoMemory) }
{
    drills_are_accepted();
    let (table, hands) = make_hands(alloc, number)?;
    let ran = match run_settled::<DeadlineCore>(alloc, &table, hands) {
        Ok(ran) => ran,
        Err(error) => return Err(refuse_schedule(error)),
    };
    Ok(DrillFigures {
        number,
        senders: sender_count(number),
        rounds: round_count(number),
        messages: ran.list.len(),
        end: ran.end,
        collided: count_garbled(&ran.list),
        received: count_received(&table, &ran.list),
    })
}

/// Puts a figure behind its name.
fn put_figure<K: Sink>(text: &mut TextBuffer, sink: &mut K, name: &[u8], figure: u128)
    ensures { Adds K.held K.faults sink.old sink.new text.old text.new (name.now ++ decimal figure) }
{
    text.put(sink, name);
    text.put_number(sink, figure);
}

/// Writes the line of a drill.
fn write_drill<K: Sink>(drilled: &DrillFigures, sink: &mut K) -> Result<(), WriteFault>
    ensures { WritesText K.held K.faults sink.old sink.new result (line_of drilled.now) }
{
    let mut text = TextBuffer::new();
    put_figure(&mut text, sink, b"DRILL ", u128::from(drilled.number));
    put_figure(&mut text, sink, b" senders ", u128::from(drilled.senders));
    put_figure(&mut text, sink, b" rounds ", u128::from(drilled.rounds));
    put_figure(&mut text, sink, b" messages ", drilled.messages as u128);
    put_figure(&mut text, sink, b" end ", u128::from(drilled.end));
    put_figure(&mut text, sink, b" collided ", u128::from(drilled.collided));
    put_figure(&mut text, sink, b" received ", drilled.received);
    text.put_byte(sink, b'\n');
    text.finish(sink)
}

/// `drill`: runs the input of a number, and writes what was found. It pulls no source.
pub fn drill<K: Sink>(alloc: Global, number: u32, out: &mut K) -> Outcome
    requires { number ≤ most_number }
    ensures { Ends no_source Done (λ text. text ≡ drill_line number)
        (sink_seen ⟦<K as Sink>⟧ out.old) (sink_seen ⟦<K as Sink>⟧ out.new) result }
{
    match drilled(alloc, number) {
        Ok(drilled) => after_writing(write_drill(&drilled, out), Outcome::Done),
        Err(outcome) => outcome,
    }
}
