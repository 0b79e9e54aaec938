//! Between which indices the receive lines of each label stand.
ghost use Rattle.std.specs.Prelude.{◌≡◌, ℕ, ◌+◌, ◌<◌, ◌≤◌, IsTrue, IsFalse, length, get_or};
ghost use Rattle.bus_table.specs.Ranges.{most_takes};
ghost use Rattle.bus_filter.specs.inside.Keys.{AreSpans, AreNoSpans, of_label, key_count};

use crate::keys::{KEYS, SEVERAL};
use bus_table::TakeLine;
use bus_words::Label;

/// By label, between which indices the receive lines of a terminal stand that have it. A table, so that one look tells that no line
/// takes a label.
#[derive(Drop)]
pub(crate) struct Spans {
    /// Not behind the first of them.
    first: [u8; KEYS],
    /// Behind the last of them, and 0 where there is none.
    behind: [u8; KEYS],
}

/// The first index of a label that stands at one more, the last.
fn first_index(first: u8, behind: u8, index: u8) -> u8
    ensures none { behind ≡ 0 → result ≡ index }
    ensures some { 0 < behind → result ≡ first }
{
    if behind == 0 { index } else { first }
}

/// Notes the receive line at an index.
fn note(spans: &mut Spans, takes: &[TakeLine], index: usize)
    requires within { index < length takes.now }
    requires few { length takes.now ≤ most_takes }
    requires before { AreSpans takes.now index spans.old.first spans.old.behind }
    ensures { AreSpans takes.now (index + 1) spans.new.first spans.new.behind }
{
    let label = usize::from(takes[index].label.value());
    spans.first[label] = first_index(spans.first[label], spans.behind[label], index as u8);
    spans.behind[label] = index as u8 + 1;
}

/// The spans of no lines, where nothing is taken yet.
fn blank() -> Spans
    ensures first_length { length result.first ≡ key_count }
    ensures behind_length { length result.behind ≡ key_count }
    ensures first { (key : ℕ) → key < key_count → get_or result.first key 0 ≡ 0 }
    ensures behind { (key : ℕ) → key < key_count → get_or result.behind key 0 ≡ 0 }
{
    Spans {
        first: [0; KEYS],
        behind: [0; KEYS],
    }
}

/// The spans of no lines.
pub(crate) fn no_spans() -> Spans
    ensures { AreNoSpans result.first result.behind }
{
    let mut spans = blank();
    spans.behind[usize::from(SEVERAL)] = 1;
    spans
}

/// Notes receive lines where none is noted.
pub(crate) fn note_all(spans: &mut Spans, takes: &[TakeLine])
    requires few { length takes.now ≤ most_takes }
    requires none { AreNoSpans spans.old.first spans.old.behind }
    ensures { AreSpans takes.now (length takes.now) spans.new.first spans.new.behind }
{
    for index in 0..takes.len() {
        note(spans, takes, index);
    }
}

/// Takes them out again, so that the room serves for the next terminal.
pub(crate) fn forget_all(spans: &mut Spans, takes: &[TakeLine])
    requires { AreSpans takes.now (length takes.now) spans.old.first spans.old.behind }
    ensures { AreNoSpans spans.new.first spans.new.behind }
{
    for line in takes {
        let label = usize::from(line.label.value());
        spans.first[label] = 0;
        spans.behind[label] = 0;
    }
}

/// The spans of receive lines.
pub(crate) fn spans_of(takes: &[TakeLine]) -> Spans
    requires { length takes.now ≤ most_takes }
    ensures { AreSpans takes.now (length takes.now) result.first result.behind }
{
    let mut spans = no_spans();
    note_all(&mut spans, takes);
    spans
}

/// Nothing where no line takes of what has this key.
pub(crate) fn weight(spans: &Spans, key: u16) -> u32
    requires { key < key_count }
    ensures value { result ≡ get_or spans.now.behind key 0 }
    ensures most { result < 256 }
{
    u32::from(spans.behind[usize::from(key)])
}

/// Whether a line can take of what has this key.
pub(crate) fn is_taken(spans: &Spans, key: u16) -> bool
    requires { key < key_count }
    ensures some { IsTrue result → 0 < get_or spans.now.behind key 0 }
    ensures none { IsFalse result → get_or spans.now.behind key 0 ≡ 0 }
{
    spans.behind[usize::from(key)] > 0
}

/// The receive lines of a label, and maybe some between them.
pub(crate) fn lines_of<'a>(spans: &Spans, takes: &'a [TakeLine], label: Label) -> &'a [TakeLine]
    requires { AreSpans takes.now (length takes.now) spans.now.first spans.now.behind }
    ensures all { of_label label result.now ≡ of_label label takes.now }
    ensures most { length result.now ≤ length takes.now }
{
    let label = usize::from(label.value());
    &takes[usize::from(spans.first[label])..usize::from(spans.behind[label])]
}
