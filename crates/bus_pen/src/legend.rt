//! Legends: what boxes and lines of a picture mean.
ghost use Rattle.std.specs.Prelude.{◌<◌, ◌^◌};
ghost use Rattle.std.specs.List.{flat_map};
ghost use Rattle.bus_outer.specs.Texts.{Adds};
ghost use Rattle.bus_pen.specs.Legends as definition;

use crate::area::Area;
use crate::class::Class;
use crate::shapes::{put_box, put_words};
use bus_outer::{Sink, TextBuffer};

/// A box of a legend. A unit is a tenth of a pixel.
#[derive(Clone, Copy, Debug, PartialEq, Eq)]
pub struct Sample {
    /// Its class.
    pub class: Class,
    /// Its left edge.
    pub left: u32,
    /// How far below the upper edge of its row of the legend it begins.
    pub below: u32,
    /// Its width.
    pub width: u32,
    /// Its height.
    pub height: u32,
}

/// What a legend says of boxes that are alike: samples of these, where its words begin, and the words. It is a tuple, since a definition
/// can't cite a constant that is a struct with references.
pub type Note = (&'static [Sample], u32, &'static [u8]);

/// A box of a row of a legend with this upper edge.
fn put_sample<K: Sink>(text: &mut TextBuffer, sink: &mut K, top: u64, sample: &Sample)
    requires { top < 2 ^ 32 }
    ensures { Adds K.held K.faults sink.old sink.new text.old text.new (definition.sample_text top sample.now) }
{
    let area = Area {
        left: u64::from(sample.left),
        top: top + u64::from(sample.below),
        width: u64::from(sample.width),
        height: u64::from(sample.height),
    };
    put_box(text, sink, sample.class, area);
}

/// Boxes of such a row.
fn put_samples<K: Sink>(text: &mut TextBuffer, sink: &mut K, top: u64, samples: &[Sample])
    requires { top < 2 ^ 32 }
    ensures { Adds K.held K.faults sink.old sink.new text.old text.new (flat_map (definition.sample_text top) samples.now) }
{
    for sample in samples {
        put_sample(text, sink, top, sample);
    }
}

/// Puts a note into a row of a legend with this upper edge and this line of words, where there are such boxes.
pub fn put_note<K: Sink>(
    text: &mut TextBuffer,
    sink: &mut K,
    there: bool,
    top: u64,
    line: u64,
    note: &Note,
)
    requires { top < 2 ^ 32 }
    ensures { Adds K.held K.faults sink.old sink.new text.old text.new
        (definition.note_text there top line note.now.0.now note.now.1 note.now.2.now) }
{
    if there {
        let (samples, left, words) = *note;
        put_samples(text, sink, top, samples);
        put_words(text, sink, Class::Small, u64::from(left), line, words);
    }
}
