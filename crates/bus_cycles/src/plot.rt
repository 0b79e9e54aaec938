//! What stands around the rows of a picture: the words above them, and the axes.
ghost use Rattle.std.specs.Prelude.{◌≡◌, ◌<◌, ◌≤◌};
ghost use Rattle.bus_outer.specs.Texts.{Adds};
ghost use Rattle.bus_pen.specs.Scales.{IsScale};
ghost use Rattle.bus_cycles.specs.CyclesTexts as definition;
ghost use Rattle.bus_cycles.specs.inside.Bounds.{IsPage};

use crate::legend::put_legend;
use crate::listing::Listed;
use crate::measures::{
    ENDS_LEFT, FOOT_HEIGHT, LOAD_RIGHT, LONG_FOOT, LONG_PICTURE, LOWER_FOOT, LOWER_TOP,
    LOWER_WORDS, MARK_WORDS_LINE, ROWS_LINE, TICK_HEIGHT, TICKS_FOOT, UPPER_FOOT, UPPER_TICKS,
    UPPER_WORDS,
};
use crate::page::Page;
use crate::survey::{MOST_ROWS, Survey};
use bus_outer::{Sink, TextBuffer};
use bus_pen::measures::{LEFT_MARGIN, RIGHT_MARGIN};
use bus_pen::{Axis, Class, Scale, Unit, begin_words, end_words, put_axis, put_parted, put_words};

/// Whether the rows reach so far down that axes stand below them too.
fn is_long(page: &Page) -> bool
    requires { IsPage page.now }
    ensures { result ≡ definition.is_long page.now }
{
    page.bottom() > LONG_PICTURE
}

/// The height of the picture.
pub(crate) fn height_of(page: &Page) -> u64
    requires { IsPage page.now }
    ensures { result ≡ definition.height_of page.now }
{
    let foot = if is_long(page) {
        LONG_FOOT
    } else {
        FOOT_HEIGHT
    };
    page.bottom() + foot
}

/// Where the next row begins.
fn put_next<K: Sink>(text: &mut TextBuffer, sink: &mut K, next: Option<u64>)
    ensures { Adds K.held K.faults sink.old sink.new text.old text.new (definition.next_words next) }
{
    if let Some(begin) = next {
        text.put(sink, b", next at ");
        put_parted(text, sink, begin);
    }
}

/// How many rows are whole, and how far behind their begins the last of their transmissions ends.
fn put_whole<K: Sink>(text: &mut TextBuffer, sink: &mut K, survey: &Survey)
    ensures { Adds K.held K.faults sink.old sink.new text.old text.new (definition.whole_words survey.now) }
{
    text.put(sink, b"; ");
    put_parted(text, sink, survey.whole);
    text.put(sink, b" whole, their last ends ");
    put_parted(text, sink, survey.least);
    text.put(sink, b" to ");
    put_parted(text, sink, survey.most);
    text.put(sink, b" bit times behind their begins");
}

/// The same where there are rows.
fn put_last_ends<K: Sink>(text: &mut TextBuffer, sink: &mut K, survey: &Survey)
    ensures { Adds K.held K.faults sink.old sink.new text.old text.new (definition.last_ends_words survey.now) }
{
    if survey.count == 0 {
        return;
    }
    if survey.whole == 0 {
        text.put(sink, b"; none whole");
    } else {
        put_whole(text, sink, survey);
    }
}

/// How many rows are drawn of how many, where the next begins, and where the last of those ends that are whole.
fn put_row_words<K: Sink>(text: &mut TextBuffer, sink: &mut K, survey: &Survey)
    ensures { Adds K.held K.faults sink.old sink.new text.old text.new (definition.row_words survey.now) }
{
    text.put(sink, b"a row for each cycle, from its begin: ");
    put_parted(text, sink, survey.count.min(MOST_ROWS));
    text.put(sink, b" of ");
    put_parted(text, sink, survey.count);
    put_next(text, sink, survey.next);
    put_last_ends(text, sink, survey);
}

/// The axes.
fn put_axes<K: Sink>(text: &mut TextBuffer, sink: &mut K, page: &Page)
    requires { IsPage page.now }
    ensures { Adds K.held K.faults sink.old sink.new text.old text.new (definition.axes_text page.now) }
{
    let upper = Axis {
        unit: Unit::Microseconds,
        words: UPPER_WORDS,
        class: Class::Tick,
        top: UPPER_TICKS,
        height: TICK_HEIGHT,
    };
    let lower = Axis {
        unit: Unit::BitTimes,
        words: LOWER_WORDS,
        class: Class::Grid,
        top: LOWER_TOP,
        height: page.bottom() - LOWER_TOP,
    };
    put_axis(text, sink, &page.scale, &upper);
    put_axis(text, sink, &page.scale, &lower);
}

/// Both axes below the rows.
fn put_axes_below<K: Sink>(text: &mut TextBuffer, sink: &mut K, scale: &Scale, bottom: u64)
    requires scale { IsScale scale.now }
    requires low { bottom ≤ 161690 }
    ensures { Adds K.held K.faults sink.old sink.new text.old text.new (definition.axes_below scale.now bottom) }
{
    let lower = Axis {
        unit: Unit::BitTimes,
        words: bottom + LOWER_FOOT,
        class: Class::Tick,
        top: bottom,
        height: TICK_HEIGHT,
    };
    let upper = Axis {
        unit: Unit::Microseconds,
        words: bottom + UPPER_FOOT,
        class: Class::Tick,
        top: bottom + TICKS_FOOT,
        height: TICK_HEIGHT,
    };
    put_axis(text, sink, scale, &lower);
    put_axis(text, sink, scale, &upper);
}

/// The axes below the rows, where these reach far down.
pub(crate) fn put_below<K: Sink>(text: &mut TextBuffer, sink: &mut K, page: &Page)
    requires { IsPage page.now }
    ensures { Adds K.held K.faults sink.old sink.new text.old text.new (definition.below_text page.now) }
{
    if is_long(page) {
        put_axes_below(text, sink, &page.scale, page.bottom());
    }
}

/// What stands above the rows: how many there are, the legend, and the axes.
pub(crate) fn put_above<K: Sink>(
    text: &mut TextBuffer,
    sink: &mut K,
    page: &Page,
    survey: &Survey,
    listed: Listed,
)
    requires { IsPage page.now }
    ensures { Adds K.held K.faults sink.old sink.new text.old text.new
        (definition.above_text page.now survey.now listed) }
{
    begin_words(text, sink, Class::Small, LEFT_MARGIN, ROWS_LINE);
    put_row_words(text, sink, survey);
    end_words(text, sink);
    put_legend(text, sink, listed);
    put_axes(text, sink, page);
    put_words(
        text,
        sink,
        Class::Small,
        LEFT_MARGIN,
        MARK_WORDS_LINE,
        b"cycle, its begin",
    );
    put_words(
        text,
        sink,
        Class::Small,
        ENDS_LEFT,
        LOWER_WORDS,
        b"first-last",
    );
    put_words(
        text,
        sink,
        Class::Detail,
        RIGHT_MARGIN,
        LOWER_WORDS,
        b"last end",
    );
    put_words(text, sink, Class::Detail, LOAD_RIGHT, LOWER_WORDS, b"load");
}
