//! The top call.
ghost use Rattle.bus_command.specs.Outside.{call};
ghost use Rattle.bus_view.specs.Acts.{ComesOf};
ghost use Rattle.bus_view.specs.Keeping.{Keeps};

use crate::command::act;
use bus_command::{Status, outcome_text};
use bus_dump::laws::{clear_lists_show_none, lawful_is_single, wires_are_told};
use bus_outer::{Sink, Source};
use bus_schedule::laws::accepted_is_closed;
use bus_table::laws::text_reads_as_its_table;
use bus_trace::laws::traces_read_back;
use std::alloc::Global;

/// The top call: does the command that the words ask for, writes a line on `err` where there is no answer, and says how the program
/// ends. A failure on `err` changes no status, and a beginning of that status's line stands there. Want of memory is free here as
/// everywhere, so that by contract status 7 too may stand behind half a line: as much of its own as was written when `err` failed.
pub fn view<S: Source, K: Sink, E: Sink>(
    alloc: Global,
    words: &[String],
    first: &mut S,
    second: &mut S,
    out: &mut K,
    err: &mut E,
) -> Status
    // Of texts that are right, where nothing outside fails: what each view promises.
    ensures keeps { Keeps (call S.Source K.Sink words.now first.old second.old out.old first.new second.new out.new) result }

    // Of any words and bytes: the outcome that is due or a fault in its place, what was taken and written, what `err` holds, and the
    // status.
    ensures acts { ComesOf S.Source K.Sink E.Sink words.now first.old second.old out.old err.old
        first.new second.new out.new err.new result }
{
    text_reads_as_its_table();
    traces_read_back();
    lawful_is_single();
    accepted_is_closed();
    clear_lists_show_none();
    wires_are_told();
    let outcome = act(alloc, words, first, second, out);
    let _ = outcome_text(&outcome, err);
    outcome.status()
}
