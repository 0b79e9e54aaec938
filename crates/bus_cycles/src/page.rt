//! What all rows of a picture go by.
ghost use Rattle.std.specs.Prelude.{◌≡◌, ◌<◌, ◌≤◌, ◌^◌};
ghost use Rattle.bus_table.specs.Turned.{AreTurned};
ghost use Rattle.bus_pen.specs.Scales.{IsScale};
ghost use Rattle.bus_cycles.specs.Lanes.{lane_of, lanes_of};
ghost use Rattle.bus_cycles.specs.Pages as definition;
ghost use Rattle.bus_cycles.specs.inside.Bounds.{IsPage};
ghost use Rattle.bus_cycles.specs.RowTexts as texts;

use crate::cut::{Seen, seen_of};
use crate::cycle::Cycle;
use crate::measures::{MIDDLE_LINE, PLAIN_ROW, PLOT_LEFT, PLOT_WIDTH, ROWS_TOP, SPLIT_ROW};
use crate::survey::{MOST_ROWS, Survey};
use bus_pen::Scale;
use bus_pen::measures::PIXEL;
use bus_shapes::Counts;
use bus_table::{MOST_SENDERS, Table, turn_at, turn_places};

/// As many as a `u8` has values.
const NUMBERS: usize = 256;

/// What all rows of a picture go by. A unit is a tenth of a pixel.
#[derive(Clone, Copy, Debug, PartialEq, Eq)]
pub(crate) struct Page {
    /// Where a moment of a row is drawn, by how far it is behind the beginning of its row.
    pub scale: Scale,
    /// What tells where rows begin.
    pub cycle: Cycle,
    /// How many rows are drawn.
    pub rows: u64,
    /// The height of a row.
    pub row_height: u64,
    /// The moments that are seen.
    pub seen: Seen,
    /// The lane of each terminal, by its number.
    pub lanes: [usize; NUMBERS],
}

/// The lane of a terminal, where the places of the senders in turn order are known.
fn lane_of(table: &Table, places: &[usize; MOST_SENDERS], terminal: u8) -> usize
    requires { AreTurned table.now places.now }
    ensures { result ≡ lane_of table.now terminal }
{
    let count = table.senders().len();
    for k in 0..count {
        if turn_at(table, places, k).number() == terminal {
            return k;
        }
    }
    count + terminal as usize
}

/// The lane of each number.
fn lanes_of(table: &Table) -> [usize; NUMBERS]
    ensures { result ≡ lanes_of table.now }
{
    let places = turn_places(table);
    let mut lanes = [0; NUMBERS];
    for number in 0..NUMBERS {
        lanes[number] = lane_of(table, &places, number as u8);
    }
    lanes
}

/// The moments behind the beginning of a row, as far as the longest that is drawn has some, and as the breach needs some.
fn scale_of(survey: &Survey) -> Scale
    ensures { result ≡ definition.scale_of survey.now }
{
    Scale {
        from: 0,
        to: survey.longest,
        left: PLOT_LEFT,
        width: PLOT_WIDTH,
    }
}

/// The height of a row, where so many garbled transmissions begin in the window.
fn row_height_of(garbled: u64) -> u64
    ensures value { result ≡ definition.row_height_of garbled }
    ensures least { 140 ≤ result }
    ensures most { result ≤ 320 }
{
    if garbled == 0 { PLAIN_ROW } else { SPLIT_ROW }
}

impl Page {
    /// What the rows of a picture go by.
    pub fn new(table: &Table, survey: &Survey, counts: &Counts) -> Page
        requires scale { IsScale (definition.scale_of survey.now) }
        requires window { counts.now.from < counts.now.to }
        requires low { counts.now.to ≤ 2 ^ 40 }
        ensures value { result ≡ definition.page_of table.now survey.now counts.now }
        ensures page { IsPage result }
    {
        Page {
            scale: scale_of(survey),
            cycle: Cycle::new(table),
            rows: survey.count.min(MOST_ROWS),
            row_height: row_height_of(counts.garbled),
            seen: seen_of(counts),
            lanes: lanes_of(table),
        }
    }

    /// The upper edge of a row.
    pub fn top_of(&self, row: u64) -> u64
        requires page { IsPage self.now }
        requires row { row ≤ 500 }
        ensures value { result ≡ definition.top_of self.now row }
        ensures least { 1690 ≤ result }
        ensures most { result ≤ 161690 }
    {
        ROWS_TOP + self.row_height * row
    }

    /// The line of the words of a row.
    pub fn line_of(&self, row: u64) -> u64
        requires page { IsPage self.now }
        requires row { row ≤ 500 }
        ensures { result ≡ texts.line_of self.now row }
    {
        self.top_of(row) + self.row_height / 2 + MIDDLE_LINE
    }

    /// The lower edge of the rows.
    pub fn bottom(&self) -> u64
        requires { IsPage self.now }
        ensures value { result ≡ definition.bottom_of self.now }
        ensures least { 1690 ≤ result }
        ensures most { result ≤ 161690 }
    {
        self.top_of(self.rows)
    }

    /// The place of a moment in a row that began at this one, on a whole pixel.
    pub fn pixel(&self, begin: u64, t: u64) -> u64
        requires page { IsPage self.now }
        requires low { t ≤ 2 ^ 41 }
        ensures value { result ≡ texts.pixel self.now begin t }
        ensures low { result < 2 ^ 21 }
    {
        let since = (t + u64::from(self.cycle.origin_offset)).saturating_sub(begin);
        self.scale.place(since) / PIXEL * PIXEL
    }
}
