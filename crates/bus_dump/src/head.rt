//! The head of a dump.
ghost use Rattle.bus_outer.specs.Texts.{Adds};
ghost use Rattle.bus_dump.specs.DumpTexts.{head_text};
ghost use Rattle.bus_regime.specs.Lines.{verdict_words};

use bus_outer::{Sink, TextBuffer};
use bus_regime::{TableVerdict, put_verdict};

/// The lines before the declarations, of which one has the words of a verdict as a comment.
pub(crate) fn put_head<K: Sink>(text: &mut TextBuffer, sink: &mut K, verdict: &TableVerdict)
    ensures { Adds K.held K.faults sink.old sink.new text.old text.new (head_text (verdict_words verdict.now)) }
{
    text.put(sink, b"$version bus629-view 1 $end\n$comment ");
    put_verdict(text, sink, verdict);
    text.put(
        sink,
        b" $end\n$timescale 100 ns $end\n$scope module bus $end\n",
    );
}
