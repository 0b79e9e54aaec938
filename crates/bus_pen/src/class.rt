//! The classes of boxes and words, and the style of each.
ghost use Rattle.std.specs.Prelude.{◌≡◌};
ghost use Rattle.std.specs.List.{flat_map};
ghost use Rattle.bus_outer.specs.Texts.{Adds};
ghost use Rattle.bus_pen.specs.Classes as definition;

use bus_outer::{Sink, TextBuffer};

/// What a box or words of a picture stand for, which says how they look. Those up to [`Class::Fault`] are classes of boxes, those
/// after it of words.
#[derive(Clone, Copy, Debug, PartialEq, Eq)]
pub enum Class {
    /// The whole picture, behind all else.
    Background,
    /// The row of every second lane.
    Band,
    /// What lies behind the horizon.
    Unobserved,
    /// A line through the plot at a mark of an axis.
    Grid,
    /// A short line at a mark of an axis.
    Tick,
    /// The span of a transmission on the bus.
    Span,
    /// A transmission of a terminal that is not garbled.
    Message,
    /// A garbled transmission: hatched.
    Garbled,
    /// One that is too narrow for a hatching within a stroke: striped across.
    GarbledNarrow,
    /// A wordstring of a transmission.
    Wordstring,
    /// A wordstring or a transmission, told from its neighbours by another shade.
    Other,
    /// The label word of a wordstring.
    Label,
    /// A wordstring of a garbled transmission.
    Noise,
    /// The line between two words.
    Edge,
    /// The moments of garbled transmissions, through all lanes, and the label word of a garbled wordstring.
    Overlap,
    /// A synchronization gap or a terminal gap.
    Gap,
    /// A transmit interval.
    Interval,
    /// A place that is compared with others.
    Mark,
    /// The moment of the first breach.
    Breach,
    /// The start of a transmission at which a fault is found, with words under the pointer. Only pictures of findings have its rule.
    Fault,
    /// The words of the verdict.
    Verdict,
    /// The words of the verdict on a refused table.
    Refusal,
    /// The words of the audit.
    Answer,
    /// Words that begin at their place.
    Note,
    /// Words that end at their place.
    Counts,
    /// Small words that begin at their place.
    Small,
    /// Small words that end at their place.
    Detail,
    /// The number of a mark, in the middle.
    Number,
    /// What a wordstring has, in the middle of its box.
    Digits,
    /// The same of a garbled one.
    NoiseDigits,
    /// The words of a gap, which end at their place.
    GapWords,
    /// The words of a transmit interval, which end at their place.
    IntervalWords,
    /// The words of the first breach, in the middle.
    BreachWords,
}

/// The classes of every picture.
const CLASSES: [Class; 32] = [
    Class::Background,
    Class::Band,
    Class::Unobserved,
    Class::Grid,
    Class::Tick,
    Class::Span,
    Class::Message,
    Class::Garbled,
    Class::GarbledNarrow,
    Class::Wordstring,
    Class::Other,
    Class::Label,
    Class::Noise,
    Class::Edge,
    Class::Overlap,
    Class::Gap,
    Class::Interval,
    Class::Mark,
    Class::Breach,
    Class::Verdict,
    Class::Refusal,
    Class::Answer,
    Class::Note,
    Class::Counts,
    Class::Small,
    Class::Detail,
    Class::Number,
    Class::Digits,
    Class::NoiseDigits,
    Class::GapWords,
    Class::IntervalWords,
    Class::BreachWords,
];

impl Class {
    /// What it is called.
    pub fn name(self) -> &'static [u8]
        ensures { result.now ≡ definition.class_name self }
    {
        match self {
            Class::Background => b"background",
            Class::Band => b"band",
            Class::Unobserved => b"unobserved",
            Class::Grid => b"grid",
            Class::Tick => b"tick",
            Class::Span => b"span",
            Class::Message => b"message",
            Class::Garbled => b"garbled",
            Class::GarbledNarrow => b"narrow-garbled",
            Class::Wordstring => b"wordstring",
            Class::Other => b"other",
            Class::Label => b"label",
            Class::Noise => b"noise",
            Class::Edge => b"edge",
            Class::Overlap => b"overlap",
            Class::Gap => b"gap",
            Class::Interval => b"interval",
            Class::Mark => b"mark",
            Class::Breach => b"breach",
            Class::Fault => b"fault",
            Class::Verdict => b"verdict",
            Class::Refusal => b"refusal",
            Class::Answer => b"answer",
            Class::Note => b"note",
            Class::Counts => b"counts",
            Class::Small => b"small",
            Class::Detail => b"detail",
            Class::Number => b"number",
            Class::Digits => b"digits",
            Class::NoiseDigits => b"noise-digits",
            Class::GapWords => b"gap-words",
            Class::IntervalWords => b"interval-words",
            Class::BreachWords => b"breach-words",
        }
    }

    /// How it looks.
    fn look(self) -> &'static [u8]
        ensures { result.now ≡ definition.look self }
    {
        match self {
            Class::Background => b"fill:#fff",
            Class::Band => b"fill:#f6f7f9",
            Class::Unobserved => b"fill:url(#unseen)",
            Class::Grid => b"fill:#d5d8dd",
            Class::Tick => b"fill:#666",
            Class::Span => b"fill:#555",
            Class::Message => b"fill:#cfe3f3;stroke:#0072b2;stroke-width:10",
            Class::Garbled => b"fill:url(#hatch);stroke:#a63a00;stroke-width:14",
            Class::GarbledNarrow => b"fill:url(#clash)",
            Class::Wordstring => b"fill:#00588f",
            Class::Other => b"fill:#37799f",
            Class::Label => b"fill:#00385c;pointer-events:none",
            Class::Noise => b"fill:#d55e00;fill-opacity:.4",
            Class::Edge => b"fill:#fff;pointer-events:none",
            Class::Overlap => b"fill:#d55e00;fill-opacity:.2;pointer-events:none",
            Class::Gap => b"fill:url(#dashes);pointer-events:none",
            Class::Interval => b"fill:#00845f;pointer-events:none",
            Class::Mark => b"fill:#000;fill-opacity:.6;pointer-events:none",
            Class::Breach => b"fill:#000;pointer-events:none",
            Class::Fault => b"fill:#000",
            Class::Verdict => b"font-size:150px;font-weight:bold",
            Class::Refusal => b"font-size:150px;font-weight:bold;fill:#a63a00",
            Class::Answer => b"font-size:150px;font-weight:bold",
            Class::Note => b"fill:#222",
            Class::Counts => b"text-anchor:end",
            Class::Small => b"font-size:100px;fill:#555",
            Class::Detail => b"font-size:100px;fill:#555;text-anchor:end",
            Class::Number => b"text-anchor:middle",
            Class::Digits => b"fill:#fff;text-anchor:middle",
            Class::NoiseDigits =>
                b"fill:#000;stroke:#fff;stroke-width:50;stroke-linejoin:round;paint-order:stroke;text-anchor:middle",
            Class::GapWords => b"font-size:100px;fill:#7a5200;text-anchor:end",
            Class::IntervalWords => b"font-size:100px;fill:#00694d;text-anchor:end",
            Class::BreachWords =>
                b"font-weight:bold;fill:#000;stroke:#fff;stroke-width:50;stroke-linejoin:round;paint-order:stroke;text-anchor:middle",
        }
    }
}

/// The class of numbers and digits on a box: of a garbled transmission, which is hatched, or of another.
pub fn digits_class(garbled: bool) -> Class
    ensures { result ≡ definition.digits_class garbled }
{
    if garbled {
        Class::NoiseDigits
    } else {
        Class::Digits
    }
}

/// Puts what a class is called.
pub(crate) fn put_name<K: Sink>(text: &mut TextBuffer, sink: &mut K, class: Class)
    ensures { Adds K.held K.faults sink.old sink.new text.old text.new (definition.class_name class) }
{
    text.put(sink, class.name());
}

/// How a class looks.
fn put_look<K: Sink>(text: &mut TextBuffer, sink: &mut K, class: Class)
    ensures { Adds K.held K.faults sink.old sink.new text.old text.new (definition.look class) }
{
    text.put(sink, class.look());
}

/// The rule of a class in the style of a picture.
pub(crate) fn put_rule<K: Sink>(text: &mut TextBuffer, sink: &mut K, class: Class)
    ensures { Adds K.held K.faults sink.old sink.new text.old text.new (definition.rule_text class) }
{
    text.put_byte(sink, b'.');
    put_name(text, sink, class);
    text.put_byte(sink, b'{');
    put_look(text, sink, class);
    text.put(sink, b"}\n");
}

/// The rules of classes.
fn put_each<K: Sink>(text: &mut TextBuffer, sink: &mut K, classes: &[Class])
    ensures { Adds K.held K.faults sink.old sink.new text.old text.new (flat_map definition.rule_text classes.now) }
{
    for class in classes {
        put_rule(text, sink, *class);
    }
}

/// The rules of the classes of every picture.
pub(crate) fn put_rules<K: Sink>(text: &mut TextBuffer, sink: &mut K)
    ensures { Adds K.held K.faults sink.old sink.new text.old text.new definition.rules_text }
{
    put_each(text, sink, &CLASSES);
}
