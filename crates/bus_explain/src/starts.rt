//! Whether an accepted table starts itself, what that means, and the advice to start.
ghost use Rattle.std.specs.Prelude.{◌≡◌, false};
ghost use Rattle.bus_outer.specs.Texts.{Adds};
ghost use Rattle.bus_table.specs.declared.mode.Mode.TheVariants.{Aperiodic};
ghost use Rattle.bus_explain.specs.Starts as starts;

use crate::advised::put_lines;
use crate::wordings::{MAY_START, NEVER_PARTS, NO_START, STARTS};
use bus_advice::Advice;
use bus_outer::{Sink, TextBuffer};
use bus_regime::{never_parts, starts_itself};
use bus_say::say;
use bus_table::{Mode, Table};

/// What is said of a table that doesn't start itself, by whether its senders never part once they all start at once.
fn start_wording(never: bool) -> &'static [u8]
    ensures { result.now ≡ starts.start_wording never }
{
    if never { NEVER_PARTS } else { MAY_START }
}

/// What stands before the advice to start, where there is none.
fn advice_wording(none: bool) -> &'static [u8]
    ensures { result.now ≡ starts.advice_wording none }
{
    if none { NO_START } else { b"" }
}

/// Puts what is said of a table that doesn't start itself.
fn put_waiting<K: Sink>(text: &mut TextBuffer, sink: &mut K, never: bool, advices: &[Advice])
    ensures { Adds K.held K.faults sink.old sink.new text.old text.new (starts.start_lines false never advices.now) }
{
    say(text, sink, start_wording(never), &[]);
    say(text, sink, advice_wording(advices.is_empty()), &[]);
    put_lines(text, sink, advices);
}

/// Puts what is said of an aperiodic table, by whether it starts itself, and whether its senders never part.
fn put_start_lines<K: Sink>(
    text: &mut TextBuffer,
    sink: &mut K,
    itself: bool,
    never: bool,
    advices: &[Advice],
)
    ensures { Adds K.held K.faults sink.old sink.new text.old text.new (starts.start_lines itself never advices.now) }
{
    if itself {
        say(text, sink, STARTS, &[]);
    } else {
        put_waiting(text, sink, never, advices);
    }
}

/// Puts what is said of the start of an aperiodic table.
fn put_aperiodic<K: Sink>(text: &mut TextBuffer, sink: &mut K, table: &Table, advices: &[Advice])
    requires aperiodic { table.now.mode ≡ Aperiodic }
    ensures { Adds K.held K.faults sink.old sink.new text.old text.new (starts.start_text Aperiodic table.now advices.now) }
{
    let itself = starts_itself(table);
    let never = never_parts(table);
    put_start_lines(text, sink, itself, never, advices);
}

/// Puts what is said of the start of a table of this mode, on which these are the advices.
pub(crate) fn put_start<K: Sink>(
    text: &mut TextBuffer,
    sink: &mut K,
    mode: Mode,
    table: &Table,
    advices: &[Advice],
)
    requires { mode ≡ table.now.mode }
    ensures { Adds K.held K.faults sink.old sink.new text.old text.new (starts.start_text mode table.now advices.now) }
{
    match mode {
        Mode::Aperiodic => put_aperiodic(text, sink, table, advices),
        Mode::Periodic => text.put(sink, b""),
    }
}
