//! What is said of an item that doesn't fit its sender, and of counts that differ.
ghost use Rattle.bus_outer.specs.Texts.{Adds};
ghost use Rattle.bus_diagnosis.specs.Sentences as sentences;

use crate::misfit::{Misfit, Unfit};
use crate::wordings::{ITEM, STRANGER, STRINGS, UNEVEN, WORDS};
use bus_outer::{Sink, TextBuffer};
use bus_say::say;
use bus_schedule::Uneven;

/// Puts why an item doesn't fit.
fn put_misfit<K: Sink>(text: &mut TextBuffer, sink: &mut K, misfit: Misfit)
    ensures { Adds K.held K.faults sink.old sink.new text.old text.new (sentences.misfit_text misfit) }
{
    match misfit {
        Misfit::Stranger => text.put(sink, STRANGER),
        Misfit::Strings { strings, lines } => say(
            text,
            sink,
            STRINGS,
            &[strings as u128, lines as u128],
        ),
        Misfit::Words {
            string,
            words,
            least,
            most,
        } => say(
            text,
            sink,
            WORDS,
            &[string as u128, words as u128, least as u128, most as u128],
        ),
    }
}

/// Puts which item doesn't fit, where it stands, and why.
pub(crate) fn put_unfit<K: Sink>(text: &mut TextBuffer, sink: &mut K, unfit: Unfit)
    ensures { Adds K.held K.faults sink.old sink.new text.old text.new (sentences.unfit_text unfit) }
{
    say(
        text,
        sink,
        ITEM,
        &[
            unfit.item as u128,
            unfit.line as u128,
            unfit.terminal as u128,
        ],
    );
    put_misfit(text, sink, unfit.misfit);
}

/// Puts two senders with different numbers of messages.
pub(crate) fn put_uneven<K: Sink>(text: &mut TextBuffer, sink: &mut K, counts: Uneven)
    ensures { Adds K.held K.faults sink.old sink.new text.old text.new (sentences.uneven_text counts) }
{
    say(
        text,
        sink,
        UNEVEN,
        &[
            counts.one as u128,
            counts.one_count as u128,
            counts.other as u128,
            counts.other_count as u128,
        ],
    );
}
