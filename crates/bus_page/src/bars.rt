//! Which rule limits the tolerance of a table: a bar for each of its limits.
ghost use Rattle.std.specs.Prelude.{◌≡◌, ◌<◌, ◌≤◌, ◌^◌, length};
ghost use Rattle.bus_outer.specs.Texts.{Adds};
ghost use Rattle.bus_pen.specs.Scales.{IsScale};
ghost use Rattle.bus_page.specs.Bars as definition;

use crate::measures::{
    BAR_HEIGHT, BAR_LINE, BESIDE_BAR, ROW_HEIGHT, ROWS_TOP, RULES_LEFT, RULES_WIDTH,
};
use crate::message::area_of;
use crate::paint::{Paint, begin_picture, end_picture, put_plain};
use bus_outer::{Sink, TextBuffer};
use bus_pen::{Area, Class, Scale, begin_words, end_words};
use bus_reach::{Limit, Rule};
use bus_say::put_time;

/// Puts words and the number of a terminal.
fn put_named<K: Sink>(text: &mut TextBuffer, sink: &mut K, name: &[u8], terminal: u8)
    ensures { Adds K.held K.faults sink.old sink.new text.old text.new (definition.named name.now terminal) }
{
    text.put(sink, name);
    text.put_number(sink, terminal);
}

/// Puts a rule, with its terminal.
fn put_rule<K: Sink>(text: &mut TextBuffer, sink: &mut K, rule: Rule)
    ensures { Adds K.held K.faults sink.old sink.new text.old text.new (definition.rule_words rule) }
{
    match rule {
        Rule::LeastGap { terminal } => put_named(text, sink, b"least terminal gap, of T", terminal),
        Rule::NextGap { terminal } => put_named(text, sink, b"gap above that of T", terminal),
        Rule::OwnGap { terminal } => put_named(text, sink, b"gap before T", terminal),
        Rule::Sync { terminal } => put_named(text, sink, b"synchronization of T", terminal),
    }
}

/// Puts what a rule alone bears.
fn put_borne<K: Sink>(text: &mut TextBuffer, sink: &mut K, bears: Option<u64>)
    ensures { Adds K.held K.faults sink.old sink.new text.old text.new (definition.borne_words bears) }
{
    match bears {
        None => text.put(sink, b"every delay"),
        Some(delay) => put_time(text, sink, delay as u128),
    }
}

/// Whether what a rule bears is what the table bears.
fn is_least(tolerance: Option<u64>, bears: Option<u64>) -> bool
    ensures { result ≡ definition.is_least tolerance bears }
{
    match (tolerance, bears) {
        (Some(a), Some(b)) => a == b,
        _ => false,
    }
}

/// How the bar of a rule looks that limits what the table bears, or doesn't.
pub(crate) fn paint_of(limits: bool) -> Paint
    ensures { result ≡ definition.paint_of limits }
{
    if limits { Paint::Limits } else { Paint::Bears }
}

/// How the words of a rule look that limits what the table bears, or doesn't.
pub(crate) fn words_class(limits: bool) -> Class
    ensures { result ≡ definition.words_class limits }
{
    if limits { Class::Answer } else { Class::Note }
}

/// Puts the words before a bar.
fn put_before<K: Sink>(text: &mut TextBuffer, sink: &mut K, top: u64, rule: Rule)
    requires { top < 2 ^ 40 }
    ensures { Adds K.held K.faults sink.old sink.new text.old text.new (definition.before_text top rule) }
{
    begin_words(
        text,
        sink,
        Class::Counts,
        RULES_LEFT - BESIDE_BAR,
        top + BAR_LINE,
    );
    put_rule(text, sink, rule);
    end_words(text, sink);
}

/// Puts the words behind a bar that ends here.
fn put_behind<K: Sink>(
    text: &mut TextBuffer,
    sink: &mut K,
    class: Class,
    left: u64,
    top: u64,
    bears: Option<u64>,
)
    requires left { left < 2 ^ 40 }
    requires top { top < 2 ^ 40 }
    ensures { Adds K.held K.faults sink.old sink.new text.old text.new (definition.behind_text class left top bears) }
{
    begin_words(text, sink, class, left + BESIDE_BAR, top + BAR_LINE);
    put_borne(text, sink, bears);
    end_words(text, sink);
}

/// Puts the row of a limit.
fn put_bar<K: Sink>(
    text: &mut TextBuffer,
    sink: &mut K,
    scale: &Scale,
    tolerance: Option<u64>,
    top: u64,
    limit: Limit,
)
    requires scale { IsScale scale.now }
    requires first { scale.now.from ≡ 0 }
    requires top { top < 2 ^ 40 }
    ensures { Adds K.held K.faults sink.old sink.new text.old text.new (definition.bar_text scale.now tolerance top limit) }
{
    let end = limit.bears.unwrap_or(scale.to);
    let limits = is_least(tolerance, limit.bears);
    let paint = paint_of(limits);
    let class = words_class(limits);
    put_before(text, sink, top, limit.rule);
    put_plain(text, sink, paint, area_of(scale, 0, end, top, BAR_HEIGHT));
    put_behind(text, sink, class, scale.place(end), top, limit.bears);
}

/// Puts the rows of limits.
fn put_bar_rows<K: Sink>(
    text: &mut TextBuffer,
    sink: &mut K,
    scale: &Scale,
    tolerance: Option<u64>,
    limits: &[Limit],
)
    requires scale { IsScale scale.now }
    requires first { scale.now.from ≡ 0 }
    requires few { length limits.now ≤ 1000 }
    ensures { Adds K.held K.faults sink.old sink.new text.old text.new
        (definition.bar_rows scale.now tolerance limits.now) }
{
    let mut top = ROWS_TOP;
    for limit in limits {
        put_bar(text, sink, scale, tolerance, top, *limit);
        top += ROW_HEIGHT;
    }
}

/// The greatest delay that a rule bears which doesn't bear all, and at least 1.
fn greatest_borne(limits: &[Limit]) -> u64
    ensures value { result ≡ definition.greatest_borne limits.now }
    ensures some { 1 ≤ result }
{
    let mut most = 1;
    for limit in limits {
        most = limit.bears.unwrap_or(0).max(most);
    }
    most
}

/// From no delay to the greatest.
fn bars_scale(limits: &[Limit]) -> Scale
    ensures value { result ≡ definition.bars_scale limits.now }
    ensures scale { IsScale result }
{
    Scale {
        from: 0,
        to: greatest_borne(limits).min(1 << 40),
        left: RULES_LEFT,
        width: RULES_WIDTH,
    }
}

/// Puts the tolerance: a line through all rows.
fn put_tolerance<K: Sink>(
    text: &mut TextBuffer,
    sink: &mut K,
    scale: &Scale,
    rows: u64,
    tolerance: Option<u64>,
)
    requires scale { IsScale scale.now }
    requires few { rows ≤ 1000 }
    ensures { Adds K.held K.faults sink.old sink.new text.old text.new (definition.tolerance_mark scale.now rows tolerance) }
{
    if let Some(delay) = tolerance {
        let area = Area {
            left: scale.place(delay),
            top: ROWS_TOP - 20,
            width: 12,
            height: ROW_HEIGHT * rows,
        };
        put_plain(text, sink, Paint::Tolerance, area);
    }
}

/// Puts the picture of the limits of a table with this tolerance.
fn put_picture<K: Sink>(
    text: &mut TextBuffer,
    sink: &mut K,
    tolerance: Option<u64>,
    limits: &[Limit],
)
    requires { length limits.now ≤ 1000 }
    ensures { Adds K.held K.faults sink.old sink.new text.old text.new (definition.picture_text tolerance limits.now) }
{
    let scale = bars_scale(limits);
    let rows = limits.len() as u64;
    begin_picture(
        text,
        sink,
        ROWS_TOP + ROW_HEIGHT * rows,
        b"What each rule bears",
    );
    put_bar_rows(text, sink, &scale, tolerance, limits);
    put_tolerance(text, sink, &scale, rows, tolerance);
    end_picture(text, sink);
}

/// Puts what its bars mean.
fn put_legend<K: Sink>(text: &mut TextBuffer, sink: &mut K)
    ensures { Adds K.held K.faults sink.old sink.new text.old text.new definition.legend_text }
{
    text.put(
        sink,
        b"<p>The bar of a rule is the greatest delay that it alone bears, and the line through them what the table bears; ",
    );
    text.put(
        sink,
        b"rules that bear no more stand out. Of a rule that bears every delay the bar has the full width.</p>\n",
    );
}

/// Puts that, and the picture.
fn put_explained<K: Sink>(
    text: &mut TextBuffer,
    sink: &mut K,
    tolerance: Option<u64>,
    limits: &[Limit],
)
    requires { length limits.now ≤ 1000 }
    ensures { Adds K.held K.faults sink.old sink.new text.old text.new (definition.explained_text tolerance limits.now) }
{
    put_legend(text, sink);
    put_picture(text, sink, tolerance, limits);
}

/// Puts both, or that there are no limits.
fn put_told<K: Sink>(
    text: &mut TextBuffer,
    sink: &mut K,
    none: bool,
    tolerance: Option<u64>,
    limits: &[Limit],
)
    requires { length limits.now ≤ 1000 }
    ensures { Adds K.held K.faults sink.old sink.new text.old text.new (definition.told_text none tolerance limits.now) }
{
    if none {
        text.put(
            sink,
            b"<p>None: one sender alone keeps its times, however long the cable is.</p>\n",
        );
    } else {
        put_explained(text, sink, tolerance, limits);
    }
}

/// Puts what is told of the limits of a table with this tolerance.
pub(crate) fn put_bars<K: Sink>(
    text: &mut TextBuffer,
    sink: &mut K,
    tolerance: Option<u64>,
    limits: &[Limit],
)
    requires { length limits.now ≤ 1000 }
    ensures { Adds K.held K.faults sink.old sink.new text.old text.new (definition.bars_text tolerance limits.now) }
{
    put_told(text, sink, limits.is_empty(), tolerance, limits);
}
