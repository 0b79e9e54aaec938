//! The command of any words.
ghost use Rattle.bus_command.specs.Outside.{call};
ghost use Rattle.bus_tool.specs.Acts.{Acts};

use crate::beside::explain_both;
use crate::drill::drill;
use crate::explain::explain;
use crate::facts::facts;
use crate::forms::Form;
use crate::itself::tell_itself;
use crate::on_cable::cable;
use crate::on_messages::on_messages;
use crate::on_table::on_table;
use crate::on_trace::on_trace;
use crate::on_wave::unwave;
use crate::refusal::Outcome;
use crate::words::form_of;
use bus_cable::laws::texts_read_as_their_cables;
use bus_outer::{Sink, Source};
use bus_strings::laws::texts_read_as_their_items;
use bus_table::laws::readings_have_their_cause;
use bus_trace::laws::traces_read_back;
use bus_wave::laws::waves_tell_traces;
use std::alloc::Global;

/// Does the command that the words ask for, and says what it came to. All its memory is taken before its first written byte.
///
/// `Usage` comes exactly where the words are no form; it takes no memory and pulls no source. The other refusals come in the order
/// of `docs/FORMATS.md`. A source that the form doesn't name isn't pulled, nor is the second where the first is refused.
pub fn act<S: Source, K: Sink>(
    alloc: Global,
    words: &[String],
    first: &mut S,
    second: &mut S,
    out: &mut K,
) -> Outcome
    ensures { Acts (call ⟦<S as Source>⟧ ⟦<K as Sink>⟧ words.now first.old second.old out.old first.new second.new out.new) result }
{
    readings_have_their_cause();
    texts_read_as_their_items();
    traces_read_back();
    waves_tell_traces();
    texts_read_as_their_cables();
    match form_of(words) {
        None => Outcome::Usage,
        Some(Form::OnTable(command)) => on_table(alloc, command, first, out),
        Some(Form::OnMessages(command)) => on_messages(alloc, command, first, second, out),
        Some(Form::OnTrace(command)) => on_trace(alloc, command, first, second, out),
        Some(Form::Unwave) => unwave(alloc, first, second, out),
        Some(Form::Drill { number }) => drill(alloc, number, out),
        Some(Form::OnItself(about)) => tell_itself(about, out),
        Some(Form::Explain) => explain(alloc, first, out),
        Some(Form::ExplainBeside) => explain_both(alloc, first, second, out),
        Some(Form::Facts) => facts(alloc, first, out),
        Some(Form::Cable { horizon }) => cable(alloc, horizon, first, second, out),
    }
}
