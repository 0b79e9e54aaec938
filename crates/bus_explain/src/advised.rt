//! Advices, each on a line of its own, which begins with what to change.
ghost use Rattle.std.specs.List.{flat_map};
ghost use Rattle.bus_outer.specs.Texts.{Adds};
ghost use Rattle.bus_explain.specs.Advised as advised;

use crate::wordings::{
    ADVICES, GAP, INTERVAL, LEAST, NO_ADVICES, PERIODIC, PLAN, START, SYNCHRONIZATION,
};
use bus_advice::Advice;
use bus_outer::{Sink, TextBuffer};
use bus_say::say;

/// Puts the line of an advice.
fn put_advice<K: Sink>(text: &mut TextBuffer, sink: &mut K, advice: Advice)
    ensures { Adds K.held K.faults sink.old sink.new text.old text.new (advised.advice_line advice) }
{
    match advice {
        Advice::Interval { ti } => say(text, sink, INTERVAL, &[ti as u128]),
        Advice::Synchronization { sg } => say(text, sink, SYNCHRONIZATION, &[sg as u128]),
        Advice::Gap { terminal, tg } => say(text, sink, GAP, &[terminal as u128, tg as u128]),
        Advice::Least {
            terminal,
            line,
            least,
        } => say(
            text,
            sink,
            LEAST,
            &[terminal as u128, line as u128, least as u128],
        ),
        Advice::Plan { ti } => say(text, sink, PLAN, &[ti as u128]),
        Advice::AsPeriodic { ti } => say(text, sink, PERIODIC, &[ti as u128]),
        Advice::Start { ti } => say(text, sink, START, &[ti as u128]),
    }
}

/// Puts the lines of advices.
pub(crate) fn put_lines<K: Sink>(text: &mut TextBuffer, sink: &mut K, advices: &[Advice])
    ensures { Adds K.held K.faults sink.old sink.new text.old text.new (flat_map advised.advice_line advices.now) }
{
    for advice in advices {
        put_advice(text, sink, *advice);
    }
}

/// Puts what stands before advices, of which there may be none.
fn put_head<K: Sink>(text: &mut TextBuffer, sink: &mut K, none: bool)
    ensures { Adds K.held K.faults sink.old sink.new text.old text.new (advised.advices_head none) }
{
    if none {
        say(text, sink, NO_ADVICES, &[]);
    } else {
        say(text, sink, ADVICES, &[]);
    }
}

/// Puts what is said of advices.
pub fn put_advices<K: Sink>(text: &mut TextBuffer, sink: &mut K, advices: &[Advice])
    ensures { Adds K.held K.faults sink.old sink.new text.old text.new (advised.advised_text advices.now) }
{
    put_head(text, sink, advices.is_empty());
    put_lines(text, sink, advices);
}
