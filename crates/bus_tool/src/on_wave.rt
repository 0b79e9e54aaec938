//! The command on a table and a wave.
ghost use Rattle.bus_tool.specs.inside.Acting.{DoesBoth};
ghost use Rattle.bus_tool.specs.Forms.{Unwave};

use crate::inputs::take_unwaved;
use crate::refusal::Outcome;
use bus_command::after_writing;
use bus_outer::{Sink, Source};
use bus_trace::write_trace;
use std::alloc::Global;

/// `unwave`: writes the trace whose wave, of the table in the first source, is in the second.
pub fn unwave<S: Source, K: Sink>(
    alloc: Global,
    first: &mut S,
    second: &mut S,
    out: &mut K,
) -> Outcome
    ensures { DoesBoth ⟦<S as Source>⟧ ⟦<K as Sink>⟧ Unwave first.old second.old out.old first.new second.new out.new result }
{
    match take_unwaved(alloc, first, second) {
        Ok(traced) => after_writing(write_trace(&traced.trace, out), Outcome::Done),
        Err(outcome) => outcome,
    }
}
