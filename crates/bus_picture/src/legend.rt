//! The legend. The definitions cite its notes.
ghost use Rattle.std.specs.Prelude.{◌<◌};
ghost use Rattle.bus_outer.specs.Texts.{Adds};
ghost use Rattle.bus_picture.specs.Legends as definition;

use crate::kinds::Kinds;
use crate::measures::{LINE_HEIGHT, OFFSET_HEIGHT, OFFSET_WIDTH};
use bus_outer::{Sink, TextBuffer};
use bus_pen::{Class, Note, Sample, put_note};

/// How far below the first row of the legend the second lies.
const LEGEND_ROW: u64 = 260;

/// How far below the upper edge of a row of the legend its words stand.
const LEGEND_WORDS: u64 = 120;

/// What a message is.
const MESSAGE: Note = (
    &[
        Sample {
            class: Class::Message,
            left: 1500,
            below: 0,
            width: 700,
            height: 180,
        },
        Sample {
            class: Class::Wordstring,
            left: 1540,
            below: 30,
            width: 260,
            height: 120,
        },
        Sample {
            class: Class::Wordstring,
            left: 1900,
            below: 30,
            width: 260,
            height: 120,
        },
    ],
    2280,
    b"a message and its wordstrings: label, extension, +data words",
);

/// What a garbled message is.
const GARBLED: Note = (
    &[
        Sample {
            class: Class::Garbled,
            left: 6400,
            below: 0,
            width: 500,
            height: 180,
        },
        Sample {
            class: Class::Noise,
            left: 6440,
            below: 30,
            width: 420,
            height: 120,
        },
    ],
    6980,
    b"garbled",
);

/// What an overlap band is.
const OVERLAP_BAND: Note = (
    &[Sample {
        class: Class::Overlap,
        left: 7700,
        below: 0,
        width: 300,
        height: 180,
    }],
    8080,
    b"two or more at once",
);

/// What lies behind the horizon.
const HORIZON: Note = (
    &[Sample {
        class: Class::Unobserved,
        left: 1500,
        below: 0,
        width: 300,
        height: 180,
    }],
    1880,
    b"behind the horizon",
);

/// What the line of a gap is.
const GAP: Note = (
    &[Sample {
        class: Class::Gap,
        left: 3200,
        below: 83,
        width: 300,
        height: LINE_HEIGHT as u32,
    }],
    3580,
    b"gap: SG, TG",
);

/// What the line of a transmit interval is.
const INTERVAL: Note = (
    &[Sample {
        class: Class::Interval,
        left: 4550,
        below: 83,
        width: 300,
        height: LINE_HEIGHT as u32,
    }],
    4930,
    b"transmit interval: TI",
);

/// What the tick of an offset is.
const OFFSET: Note = (
    &[Sample {
        class: Class::Mark,
        left: 6400,
        below: 67,
        width: OFFSET_WIDTH as u32,
        height: OFFSET_HEIGHT as u32,
    }],
    6480,
    b"offset: AT",
);

/// Three heights of boxes of what takes less than a pixel: their square is the share that is busy.
const SHARES: Note = (
    &[
        Sample {
            class: Class::Wordstring,
            left: 7700,
            below: 0,
            width: 60,
            height: 180,
        },
        Sample {
            class: Class::Wordstring,
            left: 7800,
            below: 90,
            width: 60,
            height: 90,
        },
        Sample {
            class: Class::Wordstring,
            left: 7900,
            below: 135,
            width: 60,
            height: 45,
        },
    ],
    8080,
    b"low boxes: busy 1/1, 1/4, 1/16",
);

/// A note in a row with this upper edge, where there are boxes of which it tells.
fn put<K: Sink>(text: &mut TextBuffer, sink: &mut K, there: bool, top: u64, note: &Note)
    requires { top < 200000 }
    ensures { Adds K.held K.faults sink.old sink.new text.old text.new
        (definition.noted there top note.now.0.now note.now.1 note.now.2.now) }
{
    put_note(text, sink, there, top, top + LEGEND_WORDS, note);
}

/// The legend of a picture that has these kinds of marks, with this upper edge: a row of boxes and overlap bands, and one of what is drawn
/// behind and between boxes, and of how high these are, of each kind that the picture has.
pub(crate) fn put_legend<K: Sink>(text: &mut TextBuffer, sink: &mut K, kinds: Kinds, top: u64)
    requires { top < 150000 }
    ensures { Adds K.held K.faults sink.old sink.new text.old text.new (definition.legend_text kinds top) }
{
    put(text, sink, kinds.messages, top, &MESSAGE);
    put(text, sink, kinds.garbled, top, &GARBLED);
    put(text, sink, kinds.overlap_bands, top, &OVERLAP_BAND);
    let below = top + LEGEND_ROW;
    put(text, sink, kinds.unobserved, below, &HORIZON);
    put(text, sink, kinds.gaps, below, &GAP);
    put(text, sink, kinds.intervals, below, &INTERVAL);
    put(text, sink, kinds.offsets, below, &OFFSET);
    put(text, sink, kinds.thin, below, &SHARES);
}
