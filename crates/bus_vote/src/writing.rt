//! The text of the votes.
ghost use Rattle.std.specs.Prelude.{◌≡◌, ◌<◌, ℕ, IfSome, IsTrue, Some, length, slice_get};
ghost use Rattle.std.specs.List.{flat_map, range_with_len};
ghost use Rattle.std.specs.Option.{option_copied};
ghost use Rattle.bus_outer.specs.Sinks.{WritesText};
ghost use Rattle.bus_outer.specs.Texts.{Adds};
ghost use Rattle.bus_vote.specs.inside.Finds.{AreFinds};
ghost use Rattle.bus_vote.specs.Labels.{labels};
ghost use Rattle.bus_vote.specs.inside.Putting.{words_put, round_put, label_put};
ghost use Rattle.bus_vote.specs.Rounds.{sent_by};
ghost use Rattle.bus_vote.specs.VoteLaws.{IsVotedInRuns};
ghost use Rattle.bus_vote.specs.VoteTexts.{place_text, round_text, label_line, label_text, votes_text};
ghost use Rattle.bus_vote.specs.Votes.{two_are_present, votes};
ghost use Rattle.bus_vote.specs.inside.Walks.{IsSent, IsSpaced, ArePaces};

use crate::cursor::{Cursor, are_over};
use crate::finds::Find;
use crate::hearing::{Reader, are_silent};
use crate::index::{Index, LABEL_COUNT};
use crate::label::VotedLabel;
use crate::laws::runs_are_voted;
use crate::pace::{gap_of, gaps, is_clear};
use crate::scan::voted_label;
use crate::voting::{are_present, vote, width};
use bus_outer::{Sink, TextBuffer, WriteFault};
use bus_strings::Transmission;
use bus_strings::laws::neighbours_tell;
use bus_table::Table;
use bus_table::laws::table_is_valid;
use bus_text::{four_digits, three_digits};
use bus_trace::Trace;
use bus_words::Label;

/// A place of a vote.
fn put_place<K: Sink>(text: &mut TextBuffer, sink: &mut K, word: Option<u16>)
    ensures { Adds K.held K.faults sink.old sink.new text.old text.new (place_text word) }
{
    match word {
        Some(word) => {
            text.put_byte(sink, b' ');
            text.put(sink, &four_digits(word));
        }
        None => text.put(sink, b" ----"),
    }
}

/// The places of a vote.
fn put_places<K: Sink>(
    text: &mut TextBuffer,
    sink: &mut K,
    a: Option<&[u16]>,
    b: Option<&[u16]>,
    c: Option<&[u16]>,
)
    requires { IsTrue (two_are_present (option_copied a) (option_copied b) (option_copied c)) }
    ensures { Adds K.held K.faults sink.old sink.new text.old text.new
        (flat_map place_text (votes (option_copied a.entry) (option_copied b.entry) (option_copied c.entry))) }
{
    for place in 0..width(a, b, c) {
        put_place(text, sink, vote(a, b, c, place));
    }
}

/// The line of a round.
fn put_votes<K: Sink>(
    text: &mut TextBuffer,
    sink: &mut K,
    round: usize,
    a: Option<&[u16]>,
    b: Option<&[u16]>,
    c: Option<&[u16]>,
)
    requires { IsTrue (two_are_present (option_copied a) (option_copied b) (option_copied c)) }
    ensures { Adds K.held K.faults sink.old sink.new text.old text.new
        (round_text round (votes (option_copied a.entry) (option_copied b.entry) (option_copied c.entry))) }
{
    text.put(sink, b"V ");
    text.put_number(sink, round);
    put_places(text, sink, a, b, c);
    text.put_byte(sink, b'\n');
}

/// The line of a round, where it is voted.
fn put_round<K: Sink>(
    text: &mut TextBuffer,
    sink: &mut K,
    round: usize,
    a: Option<&[u16]>,
    b: Option<&[u16]>,
    c: Option<&[u16]>,
)
    ensures { Adds K.held K.faults sink.old sink.new text.old text.new
        (words_put round (option_copied a.entry) (option_copied b.entry) (option_copied c.entry)) }
{
    if are_present(a, b, c) {
        put_votes(text, sink, round, a, b, c);
    }
}

/// The walk of a channel's sender.
fn walk<'a>(list: &'a [Transmission], gaps: Option<&[usize]>, terminal: u8) -> Cursor<'a>
    requires sent { IsSent list.now }
    requires paces { ArePaces list.now (option_copied gaps) }
    ensures { result ≡ sent_by terminal list.now }
{
    Cursor::new(list, terminal, gap_of(gaps, terminal))
}

/// The rounds of a voted label. Three walks go over the list, one for each channel; once two are over, no round is voted.
fn put_rounds<K: Sink>(
    text: &mut TextBuffer,
    sink: &mut K,
    voted: &VotedLabel,
    list: &[Transmission],
    gaps: Option<&[usize]>,
)
    requires sent { IsSent list.now }
    requires paces { ArePaces list.now (option_copied gaps) }
    ensures { Adds K.held K.faults sink.old sink.new text.old text.new
        (flat_map (round_put list.now voted.now) (range_with_len 0 (length list.now))) }
{
    let mut first = walk(list, gaps, voted.first.terminal);
    let mut second = walk(list, gaps, voted.second.terminal);
    let mut third = walk(list, gaps, voted.third.terminal);
    for round in 0..list.len() {
        if are_over(&first, &second, &third) {
            return;
        }
        let a = first.words(voted.label, voted.first.ext);
        let b = second.words(voted.label, voted.second.ext);
        let c = third.words(voted.label, voted.third.ext);
        put_round(text, sink, round, a, b, c);
    }
}

/// The same from the finds of the label.
fn put_found<K: Sink>(
    text: &mut TextBuffer,
    sink: &mut K,
    voted: &VotedLabel,
    list: &[Transmission],
    finds: &[Find],
)
    requires { AreFinds list.now finds.now voted.now.label }
    ensures { Adds K.held K.faults sink.old sink.new text.old text.new
        (flat_map (round_put list.now voted.now) (range_with_len 0 (length list.now))) }
{
    let mut first = Reader::new(list, finds, voted.label, voted.first);
    let mut second = Reader::new(list, finds, voted.label, voted.second);
    let mut third = Reader::new(list, finds, voted.label, voted.third);
    for round in 0..list.len() {
        if are_silent(&first, &second, &third) {
            return;
        }
        let a = first.words();
        let b = second.words();
        let c = third.words();
        put_round(text, sink, round, a, b, c);
    }
}

/// The line of a voted label.
fn put_label_line<K: Sink>(text: &mut TextBuffer, sink: &mut K, voted: &VotedLabel)
    ensures { Adds K.held K.faults sink.old sink.new text.old text.new (label_line voted.now) }
{
    text.put(sink, b"LABEL ");
    text.put(sink, &three_digits(voted.label.value()));
    text.put_byte(sink, b' ');
    text.put_number(sink, voted.first.terminal);
    text.put_byte(sink, b' ');
    text.put_number(sink, voted.second.terminal);
    text.put_byte(sink, b' ');
    text.put_number(sink, voted.third.terminal);
    text.put_byte(sink, b'\n');
}

/// The rounds of a voted label, from finds where there are some, and else by walks.
fn put_all_rounds<K: Sink>(
    text: &mut TextBuffer,
    sink: &mut K,
    voted: &VotedLabel,
    list: &[Transmission],
    gaps: Option<&[usize]>,
    finds: Option<&[Find]>,
)
    requires sent { IsSent list.now }
    requires paces { ArePaces list.now (option_copied gaps) }
    requires finds { IfSome finds (λ finds. AreFinds list.now finds.now voted.now.label) }
    ensures { Adds K.held K.faults sink.old sink.new text.old text.new
        (flat_map (round_put list.now voted.now) (range_with_len 0 (length list.now))) }
{
    match finds {
        None => put_rounds(text, sink, voted, list, gaps),
        Some(finds) => put_found(text, sink, voted, list, finds),
    }
}

/// A voted label.
fn put_voted<K: Sink>(
    text: &mut TextBuffer,
    sink: &mut K,
    voted: &VotedLabel,
    list: &[Transmission],
    gaps: Option<&[usize]>,
    index: &Index,
)
    requires sent { IsSent list.now }
    requires paces { ArePaces list.now (option_copied gaps) }
    requires same { index.now ≡ list.now }
    ensures { Adds K.held K.faults sink.old sink.new text.old text.new (label_text list.now voted.now) }
{
    put_label_line(text, sink, voted);
    put_all_rounds(text, sink, voted, list, gaps, index.finds(voted.label));
}

/// A label, where it is voted on.
fn put_label<K: Sink>(
    text: &mut TextBuffer,
    sink: &mut K,
    table: &Table,
    list: &[Transmission],
    gaps: Option<&[usize]>,
    index: &mut Index,
    label: Label,
)
    requires sent { IsSent list.now }
    requires paces { ArePaces list.now (option_copied gaps) }
    requires same { index.old ≡ list.now }
    ensures text { Adds K.held K.faults sink.old sink.new text.old text.new (label_put table.now list.now label) }
    ensures same { index.new ≡ list.now }
{
    if let Some(voted) = voted_label(table, label) {
        index.look_for(table, gaps, label);
        put_voted(text, sink, &voted, list, gaps, index);
    }
}

/// The labels in ascending order.
fn put_labels<K: Sink>(
    text: &mut TextBuffer,
    sink: &mut K,
    table: &Table,
    list: &[Transmission],
    gaps: Option<&[usize]>,
)
    requires sent { IsSent list.now }
    requires paces { ArePaces list.now (option_copied gaps) }
    ensures { Adds K.held K.faults sink.old sink.new text.old text.new (flat_map (label_put table.now list.now) labels) }
{
    let mut index = Index::new(list, table);
    for number in 0..LABEL_COUNT {
        let label = Label::new(number).unwrap();
        put_label(text, sink, table, list, gaps, &mut index, label);
    }
}

/// The gaps, where nothing is garbled.
fn clear_gaps<'a>(list: &[Transmission], gaps: &'a [usize]) -> Option<&'a [usize]>
    requires sent { IsSent list.now }
    requires spaced { (terminal gap : ℕ) → slice_get gaps.now terminal ≡ Some gap → IsSpaced terminal gap list.now }
    ensures { ArePaces list.now (option_copied result) }
{
    if is_clear(list) { Some(gaps) } else { None }
}

/// Writes the votes of a trace: each label of the table that three senders send on one SEND line each, and of each of its rounds the
/// words that two of them agree on. It takes no memory, and about a megabyte of the stack.
///
/// Of the trace of a run of an accepted table and even hands every round below the number of messages is voted, from the words of the
/// messages of that round in the three hands: two hands that are alike fix every vote.
///
/// At `WriteFault` the sink has taken a front of the text, and its count of faults rose.
pub fn write_votes<K: Sink>(table: &Table, trace: &Trace, sink: &mut K) -> Result<(), WriteFault>
    ensures text { WritesText K.held K.faults sink.old sink.new result (votes_text table.now trace.now.list) }
    ensures runs { IsVotedInRuns table.now trace.now.list }
{
    neighbours_tell();
    runs_are_voted();
    table_is_valid(table);
    let list = trace.list();
    let mut text = TextBuffer::new();
    text.put(sink, b"VOTE 1\n");
    let gaps = gaps(list);
    put_labels(&mut text, sink, table, list, clear_gaps(list, &gaps));
    text.put(sink, b"END\n");
    text.finish(sink)
}
