//! The legend: what boxes and lines mean, as far as there are such ones. The definitions cite its notes.
ghost use Rattle.bus_outer.specs.Texts.{Adds};
ghost use Rattle.bus_cycles.specs.Legends as definition;

use crate::listing::Listed;
use crate::measures::{BREACH_WIDTH, DUE_WIDTH, FAULT_WIDTH, LEGEND_LINE, LEGEND_TOP};
use bus_outer::{Sink, TextBuffer};
use bus_pen::{Class, Note, Sample, put_note};

/// What plain boxes mean, of terminals of even and of odd lanes.
const PLAIN: Note = (
    &[
        Sample {
            class: Class::Other,
            left: 200,
            below: 0,
            width: 120,
            height: 90,
        },
        Sample {
            class: Class::Wordstring,
            left: 340,
            below: 0,
            width: 120,
            height: 90,
        },
    ],
    500,
    b"sent by the terminal of this number",
);

/// What hatched boxes mean.
const GARBLED: Note = (
    &[Sample {
        class: Class::Garbled,
        left: 2900,
        below: 0,
        width: 120,
        height: 90,
    }],
    3060,
    b"garbled: another overlaps it",
);

/// What the mark of a breach means.
const BREACH: Note = (
    &[Sample {
        class: Class::Breach,
        left: 5040,
        below: 0,
        width: BREACH_WIDTH as u32,
        height: 90,
    }],
    5100,
    b"first breach",
);

/// What the mark of a fault means, which stands where that of a breach would.
const FAULT: Note = (
    &[Sample {
        class: Class::Fault,
        left: 5040,
        below: 0,
        width: FAULT_WIDTH as u32,
        height: 90,
    }],
    5100,
    b"fault",
);

/// What it means that a row is drawn open.
const CUT: Note = (
    &[Sample {
        class: Class::Unobserved,
        left: 6100,
        below: 0,
        width: 120,
        height: 90,
    }],
    6260,
    b"cut: the cycle isn't seen whole",
);

/// What the line of an offset means.
const DUE: Note = (
    &[Sample {
        class: Class::Tick,
        left: 8300,
        below: 0,
        width: DUE_WIDTH as u32,
        height: 90,
    }],
    8360,
    b"offset: a start is due",
);

/// A note, where there are boxes of which it tells.
fn put<K: Sink>(text: &mut TextBuffer, sink: &mut K, there: bool, note: &Note)
    ensures { Adds K.held K.faults sink.old sink.new text.old text.new (definition.noted there note.now.0.now note.now.1 note.now.2.now) }
{
    put_note(text, sink, there, LEGEND_TOP, LEGEND_LINE, note);
}

/// What is listed.
pub(crate) fn put_legend<K: Sink>(text: &mut TextBuffer, sink: &mut K, listed: Listed)
    ensures { Adds K.held K.faults sink.old sink.new text.old text.new (definition.legend_text listed) }
{
    put(text, sink, listed.plain, &PLAIN);
    put(text, sink, listed.garbled, &GARBLED);
    put(text, sink, listed.breach, &BREACH);
    put(text, sink, listed.fault, &FAULT);
    put(text, sink, listed.cut, &CUT);
    put(text, sink, listed.due, &DUE);
}
