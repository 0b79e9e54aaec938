//! A table that is wrong as a whole: the terminal or the pair, why, and what to change.
ghost use Rattle.bus_outer.specs.Sinks.{WritesText};
ghost use Rattle.bus_outer.specs.Texts.{Adds};
ghost use Rattle.bus_explain.specs.Wholes as wholes;

use crate::faults::{
    GAP_NOT_SHORT, GAP_TWICE, NO_SENDER, NUMBER_TWICE, OFFSET_RANGE, PAIR_TWICE, WHOLE,
};
use bus_outer::{Sink, TextBuffer, WriteFault};
use bus_say::say;
use bus_table::WholeReason;
use bus_words::{Ext, Label};

/// Puts a sentence on a label and an extension.
fn put_pair<K: Sink>(text: &mut TextBuffer, sink: &mut K, label: Label, ext: Ext)
    ensures { Adds K.held K.faults sink.old sink.new text.old text.new (wholes.pair_text label ext) }
{
    say(
        text,
        sink,
        PAIR_TWICE,
        &[label.value() as u128, ext.value() as u128],
    );
}

/// Puts a reason.
fn put_reason<K: Sink>(text: &mut TextBuffer, sink: &mut K, reason: WholeReason)
    ensures { Adds K.held K.faults sink.old sink.new text.old text.new (wholes.reason_text reason) }
{
    match reason {
        WholeReason::NoSender => say(text, sink, NO_SENDER, &[]),
        WholeReason::NumberTwice(terminal) => say(text, sink, NUMBER_TWICE, &[terminal as u128]),
        WholeReason::GapTwice(terminal) => say(text, sink, GAP_TWICE, &[terminal as u128]),
        WholeReason::GapNotShort(terminal) => say(text, sink, GAP_NOT_SHORT, &[terminal as u128]),
        WholeReason::PairTwice(label, ext) => put_pair(text, sink, label, ext),
        WholeReason::OffsetRange(terminal) => say(text, sink, OFFSET_RANGE, &[terminal as u128]),
    }
}

/// Writes what is said of a table that is wrong as a whole for this reason. It takes no memory.
pub fn write_whole<K: Sink>(reason: WholeReason, sink: &mut K) -> Result<(), WriteFault>
    ensures { WritesText K.held K.faults sink.old sink.new result (wholes.whole_text reason) }
{
    let mut text = TextBuffer::new();
    say(&mut text, sink, WHOLE, &[]);
    put_reason(&mut text, sink, reason);
    text.finish(sink)
}
