//! The style of a picture: how its classes look, in a light and in a dark scheme. The definitions cite its texts.
ghost use Rattle.bus_outer.specs.Texts.{Adds};
ghost use Rattle.bus_pen.specs.Styles as definition;

use crate::class::{Class, put_rule, put_rules};
use bus_outer::{Sink, TextBuffer};

/// The style of words of every class.
const FONT: &[u8] =
    b"text{font-family:DejaVu Sans Mono,Menlo,Consolas,monospace;font-size:110px;fill:#222;pointer-events:none}\n";

/// What is drawn in another colour in a dark scheme, where the viewer asks for one, with contrasts as great.
const DARK: &[u8] = b"@media(prefers-color-scheme:dark){\n\
    text,.note{fill:#e6e8eb}.small,.detail{fill:#aab2bd}.gap-words{fill:#e8b75a}.interval-words{fill:#5fd6b0}\n\
    .refusal{fill:#ff9a4d}.digits{fill:#000}.noise-digits,.breach-words{fill:#fff;stroke:#14171b}\n\
    .background,.edge{fill:#14171b}.band{fill:#1b1f25}.grid{fill:#333a43}.tick,.span{fill:#9aa2ad}\n\
    .message{fill:#17344a;stroke:#56b4e9}.wordstring{fill:#6fb7e6}.other{fill:#3f86b4}.label{fill:#b9def7}\n\
    .garbled{stroke:#ff9a4d}#hatch rect{fill:#5a2b00}#hatch rect+rect{fill:#e8741e}\n\
    #clash rect{fill:#5a2b00}#clash rect+rect{fill:#ff9a4d}#unseen rect{fill:#23282f}#unseen rect+rect{fill:#596270}\n\
    #dashes rect{fill:#5c4410}#dashes rect+rect{fill:#e0a030}.interval{fill:#2fc79a}.mark,.breach{fill:#fff}}\n";

/// The patterns that are told apart in grey, each a ground and a stripe: the hatching of what is garbled, the stripes across what is too
/// narrow for it, the hatching of what lies behind the horizon, the other way, and the dashes of a gap.
const PATTERNS: &[u8] =
    b"<defs><pattern id=\"hatch\" width=\"80\" height=\"80\" patternUnits=\"userSpaceOnUse\" patternTransform=\"rotate(45)\">\
    <rect width=\"80\" height=\"80\" fill=\"#ffd2a8\"/><rect width=\"24\" height=\"80\" fill=\"#d55e00\"/></pattern>\n\
    <pattern id=\"clash\" width=\"40\" height=\"40\" patternUnits=\"userSpaceOnUse\">\
    <rect width=\"40\" height=\"40\" fill=\"#ffd2a8\"/><rect width=\"40\" height=\"24\" fill=\"#a63a00\"/></pattern>\n\
    <pattern id=\"unseen\" width=\"70\" height=\"70\" patternUnits=\"userSpaceOnUse\" patternTransform=\"rotate(-45)\">\
    <rect width=\"70\" height=\"70\" fill=\"#eceef1\"/><rect width=\"16\" height=\"70\" fill=\"#a4abb5\"/></pattern>\n\
    <pattern id=\"dashes\" width=\"60\" height=\"60\" patternUnits=\"userSpaceOnUse\">\
    <rect width=\"60\" height=\"60\" fill=\"#e6cd98\"/><rect width=\"36\" height=\"60\" fill=\"#8a5f00\"/></pattern></defs>\n";

/// The colour of the marks of findings in a dark scheme, and the end of their style.
const DARK_FAULT: &[u8] = b"@media(prefers-color-scheme:dark){.fault{fill:#fff}}\n</style>\n";

/// Puts the style of all classes, in a light and in a dark scheme, and the hatching of what is garbled.
pub fn put_style<K: Sink>(text: &mut TextBuffer, sink: &mut K)
    ensures { Adds K.held K.faults sink.old sink.new text.old text.new definition.style_text }
{
    text.put(sink, b"<style>\n");
    text.put(sink, FONT);
    put_rules(text, sink);
    text.put(sink, DARK);
    text.put(sink, b"</style>\n");
    text.put(sink, PATTERNS);
}

/// Puts the style of the marks of findings, which only their pictures have.
pub fn put_fault_style<K: Sink>(text: &mut TextBuffer, sink: &mut K)
    ensures { Adds K.held K.faults sink.old sink.new text.old text.new definition.fault_style }
{
    text.put(sink, b"<style>\n");
    put_rule(text, sink, Class::Fault);
    text.put(sink, DARK_FAULT);
}
