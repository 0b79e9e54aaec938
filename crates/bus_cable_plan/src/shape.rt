//! The shapes of a plan, and which of them needs least.
ghost use Rattle.std.specs.Prelude.{◌≡◌, ◌+◌, ◌-◌, ◌*◌, ◌<◌, ◌≤◌, max, min};
ghost use Rattle.bus_table.specs.Turned.{AreTurned};
ghost use Rattle.bus_table.specs.Turns.{turn_order};
ghost use Rattle.bus_table.specs.Ranges.{most_sg, most_tg, most_ti};
ghost use Rattle.bus_strings.specs.Limits.{most_terminal};
ghost use Rattle.bus_cable_plan.specs.Shapes as shapes;
ghost use Rattle.bus_cable_plan.specs.inside.Bounds.{IsSmall};

use bus_table::{MOST_SENDERS, Sender, Table, longest, turn_at};

/// How long the gaps of a plan are, in bit times: none is shorter than `floor`, and those of the senders with the terminal gaps `first` and
/// `second` are longer by `first_more` and `second_more`.
#[derive(Clone, Copy, Debug)]
pub struct Shape {
    pub floor: u32,
    pub first: u32,
    pub first_more: u32,
    pub second: u32,
    pub second_more: u32,
}

/// The terminal gaps of a sender and of the one behind it, in bit times.
#[derive(Clone, Copy, Debug)]
pub struct Pair {
    pub before: u32,
    pub behind: u32,
}

/// The greater of two.
fn greater(a: u32, b: u32) -> u32
    ensures { result ≡ max a b }
{
    if a < b { b } else { a }
}

/// The lesser of two.
pub(crate) fn lesser(a: u32, b: u32) -> u32
    ensures { result ≡ min a b }
{
    if a < b { a } else { b }
}

/// What is added to the gap of a sender, where that of the one with this terminal gap is longer by `more`.
fn added(tg: u32, more: u32, sender: &Sender) -> u32
    ensures value { result ≡ shapes.added tg more sender.now }
    ensures bound { result ≤ more }
{
    if sender.tg() == tg { more } else { 0 }
}

/// The gap before a sender in this shape, at least, so that delays up to `d` are borne.
pub(crate) fn gap_in(d: u32, shape: Shape, sender: &Sender) -> u32
    requires most { d ≤ most_ti }
    requires small { IsSmall shape }
    ensures value { result ≡ shapes.gap_in d shape sender.now }
    ensures bound { result ≤ 140000 }
{
    greater(shape.floor, sender.tg() + d)
        + added(shape.first, shape.first_more, sender)
        + added(shape.second, shape.second_more, sender)
}

/// What a shape needs for the senders of a table: their gaps and their longest messages.
pub(crate) fn needed(table: &Table, d: u32, shape: Shape) -> u64
    requires most { d ≤ most_ti }
    requires small { IsSmall shape }
    ensures value { result ≡ shapes.needed d shape table.now.senders }
    ensures bound { result ≤ 400000 * most_terminal }
{
    let mut sum = 0;
    for sender in table.senders() {
        sum += u64::from(gap_in(d, shape, sender)) + u64::from(longest(sender));
    }
    sum
}

/// The two greatest terminal gaps; the second is 0 where there is one sender.
fn greatest_gaps(senders: &[Sender]) -> (u32, u32)
    ensures first { result.0 ≡ shapes.greatest_tg senders.now }
    ensures second { result.1 ≡ shapes.second_tg senders.now }
{
    let mut first = 0;
    let mut second = 0;
    for sender in senders {
        let tg = sender.tg();
        second = greater(second, lesser(first, tg));
        first = greater(first, tg);
    }
    (first, second)
}

/// Of two pairs of neighbours the one whose terminal gaps are greater together: the first where they are the same.
fn greater_pair(a: Pair, b: Pair) -> Pair
    requires before { (a.before ≤ most_tg) }
    requires behind { (a.behind ≤ most_tg) }
    requires other { (b.before ≤ most_tg) }
    requires next { (b.behind ≤ most_tg) }
    ensures { result ≡ shapes.greater_pair a b }
{
    if a.before + a.behind < b.before + b.behind {
        b
    } else {
        a
    }
}

/// The pair of neighbours in turn order, round its end, whose terminal gaps are the greatest together.
fn greatest_pair(table: &Table, places: &[usize; MOST_SENDERS]) -> Pair
    requires turned { AreTurned table.now places.now }
    ensures value { result ≡ shapes.greatest_pair (turn_order table.now) }
    ensures before { result.before ≤ most_tg }
    ensures behind { result.behind ≤ most_tg }
{
    let n = table.senders().len();
    let first = turn_at(table, places, 0).tg();
    let mut before = first;
    let mut best = Pair {
        before: 0,
        behind: 0,
    };
    for k in 1..n {
        let behind = turn_at(table, places, k).tg();
        best = greater_pair(best, Pair { before, behind });
        before = behind;
    }
    greater_pair(
        best,
        Pair {
            before,
            behind: first,
        },
    )
}

/// By how much a gap that is no shorter than a synchronization gap less one, nor than this terminal gap and the delay, is short of a
/// synchronization gap.
fn short_by(d: u32, sg: u32, tg: u32) -> u32
    requires most { d ≤ most_ti }
    requires tg { tg ≤ most_tg }
    ensures value { result ≡ shapes.short_by d sg tg }
    ensures bound { result ≤ sg }
{
    sg.saturating_sub(greater(sg.saturating_sub(1), tg + d))
}

/// Of two shapes the one that needs less: the first where they need the same.
fn lesser_shape(table: &Table, d: u32, a: Shape, b: Shape) -> Shape
    requires most { d ≤ most_ti }
    requires first { IsSmall a }
    requires second { IsSmall b }
    ensures value { result ≡ shapes.lesser_shape d table.now.senders a b }
    ensures small { IsSmall result }
{
    if needed(table, d, b) < needed(table, d, a) {
        b
    } else {
        a
    }
}

/// The shape in which one gap is a synchronization gap longer.
fn own(sg: u32, first: u32) -> Shape
    requires { (sg ≤ most_sg) }
    ensures value { result ≡ shapes.own sg first }
    ensures small { IsSmall result }
{
    Shape {
        floor: 0,
        first,
        first_more: sg,
        second: 0,
        second_more: 0,
    }
}

/// The shape in which the gap of the one of these neighbours is a synchronization gap and the delay, that of the other a synchronization
/// gap.
fn neighbours(d: u32, sg: u32, pair: Pair) -> Shape
    requires sg { (sg ≤ most_sg) }
    requires most { d ≤ most_ti }
    requires behind { pair.behind ≤ most_tg }
    ensures value { result ≡ shapes.neighbours d sg pair }
    ensures small { IsSmall result }
{
    Shape {
        floor: 0,
        first: pair.before,
        first_more: sg.saturating_sub(pair.before),
        second: pair.behind,
        second_more: sg.saturating_sub(pair.behind + d),
    }
}

/// The shape in which two gaps are a synchronization gap and the delay.
fn apart(sg: u32, first: u32, second: u32) -> Shape
    requires { (sg ≤ most_sg) }
    ensures value { result ≡ shapes.apart sg first second }
    ensures small { IsSmall result }
{
    Shape {
        floor: 0,
        first,
        first_more: sg.saturating_sub(first),
        second,
        second_more: sg.saturating_sub(second),
    }
}

/// The shape in which no gap is shorter than a synchronization gap less one, and two are synchronization gaps.
fn round(d: u32, sg: u32, first: u32, second: u32) -> Shape
    requires sg { (sg ≤ most_sg) }
    requires most { d ≤ most_ti }
    requires first { first ≤ most_tg }
    requires second { second ≤ most_tg }
    ensures value { result ≡ shapes.round d sg first second }
    ensures small { IsSmall result }
{
    Shape {
        floor: sg.saturating_sub(1),
        first,
        first_more: short_by(d, sg, first),
        second,
        second_more: short_by(d, sg, second),
    }
}

/// The shape that needs least for the senders of a table in their turn order.
pub(crate) fn shape_of(table: &Table, places: &[usize; MOST_SENDERS], d: u32) -> Shape
    requires turned { AreTurned table.now places.now }
    requires most { d ≤ most_ti }
    ensures value { result ≡ shapes.shape_of d table.now }
    ensures small { IsSmall result }
{
    let sg = table.sg();
    let (first, second) = greatest_gaps(table.senders());
    let pair = greatest_pair(table, places);
    let one = lesser_shape(table, d, own(sg, first), neighbours(d, sg, pair));
    let two = lesser_shape(table, d, one, apart(sg, first, second));
    lesser_shape(table, d, two, round(d, sg, first, second))
}
