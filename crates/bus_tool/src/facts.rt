//! `facts`: what `explain` tells of a text, and more numbers, as one line of JSON.
ghost use Rattle.std.specs.Prelude.{◌≡◌, if◌then◌else◌};
ghost use Rattle.bus_command.specs.declared.outcome.Outcome.TheVariants.{Answered, Done};
ghost use Rattle.bus_facts.specs.Facts.{facts_text};
ghost use Rattle.bus_tool.specs.inside.Acting.{DoesFirst, EndsExplaining};
ghost use Rattle.bus_tool.specs.Due.{explain_answer};
ghost use Rattle.bus_tool.specs.Forms.{Facts};

use crate::refusal::{Outcome, ToolRefusal};
use bus_command::{TEXT_LIMIT, after_writing, take_text};
use bus_facts::facts_of;
use bus_outer::{Sink, Source, write_all};
use std::alloc::Global;

/// The answer to a text that gives a table which is accepted, or doesn't.
fn answer(accepted: bool) -> Outcome
    ensures { result ≡ (if accepted then Done else Answered) }
{
    if accepted {
        Outcome::Done
    } else {
        Outcome::Answered
    }
}

/// Writes the facts of a text.
fn write_facts<K: Sink>(alloc: Global, text: &[u8], out: &mut K) -> Outcome
    ensures { EndsExplaining ⟦<K as Sink>⟧ (explain_answer text.now) (facts_text text.now) out.old out.new result }
{
    match facts_of(alloc, text) {
        Ok(facts) => after_writing(
            write_all(out, facts.line.as_bytes()),
            answer(facts.accepted),
        ),
        Err(_) => Outcome::NoMemory,
    }
}

/// Writes the facts of the text in the first source. Only its size is refused; all memory is taken before the first written byte.
pub fn facts<S: Source, K: Sink>(alloc: Global, first: &mut S, out: &mut K) -> Outcome
    ensures { DoesFirst ⟦<S as Source>⟧ ⟦<K as Sink>⟧ Facts first.old out.old first.new out.new result }
{
    match take_text::<ToolRefusal, S>(alloc, TEXT_LIMIT, 1, first) {
        Ok(text) => write_facts(alloc, &text, out),
        Err(outcome) => outcome,
    }
}
