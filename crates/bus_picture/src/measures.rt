//! The measures of time lines, in units of a tenth of a pixel. The definitions cite them.

/// The upper edge of the plot, which is that of the bus.
pub(crate) const PLOT_TOP: u64 = 1170;

/// The height of a row.
pub(crate) const ROW_HEIGHT: u64 = 320;

/// The left edge of the plot.
pub(crate) const PLOT_LEFT: u64 = 1500;

/// The width of the plot, which leaves room for half of a number at its right edge.
pub(crate) const PLOT_WIDTH: u64 = 8400;

/// Where the words beside a lane end.
pub(crate) const NAMES_RIGHT: u64 = 1380;

/// The line of the load up to the last end, between those of the audit and of the counts.
pub(crate) const TAIL_LINE: u64 = 585;

/// Where the words on loads begin, so that `100.0 %` ends before the right edge of the picture.
pub(crate) const LOAD_LEFT: u64 = 9940;

/// Where the words on how far starts lie apart begin, so that two numbers of six digits end before a terminal's number of three.
pub(crate) const PACE_LEFT: u64 = 80;

/// How far below its upper edge the name of the bus stands.
pub(crate) const BUS_LINE: u64 = 200;

/// How far below its upper edge the number of a lane stands.
pub(crate) const TERMINAL_LINE: u64 = 160;

/// How far below its upper edge the timers of a lane stand in words.
pub(crate) const TIMERS_LINE: u64 = 270;

/// The line of the numbers above the plot.
pub(crate) const UPPER_WORDS: u64 = 1050;

/// Where the marks above the plot begin.
pub(crate) const UPPER_TICKS: u64 = 1110;

/// How high the marks above the plot are.
pub(crate) const TICK_HEIGHT: u64 = 60;

/// How far below the plot the numbers below it stand.
pub(crate) const LOWER_WORDS: u64 = 210;

/// How far below the plot it stands how many lanes are left out.
pub(crate) const LEFT_OUT_LINE: u64 = 370;

/// How far below the plot the legend begins.
pub(crate) const LEGEND_BELOW: u64 = 460;

/// How much of a picture lies below its plot.
pub(crate) const FOOT_HEIGHT: u64 = 1060;

/// How far below the upper edge of its row a box begins.
pub(crate) const BOX_BELOW: u64 = 60;

/// The height of a box.
pub(crate) const BOX_HEIGHT: u64 = 180;

/// The least height of a box: a pixel.
pub(crate) const LEAST_HEIGHT: u64 = 10;

/// How far the stroke of a message reaches beyond its edges: half of its width.
pub(crate) const MESSAGE_OVERHANG: u64 = 5;

/// How far that of a garbled transmission does.
pub(crate) const GARBLED_OVERHANG: u64 = 7;

/// How far below the upper edge of its row the box of a wordstring begins.
pub(crate) const STRING_BELOW: u64 = 90;

/// The height of the box of a wordstring.
pub(crate) const STRING_HEIGHT: u64 = 120;

/// How far below the upper edge of its box the words of a wordstring stand.
pub(crate) const STRING_LINE: u64 = 100;

/// A box that takes less is narrow: six pixels.
pub(crate) const NARROW: u64 = 60;

/// The room of the label and the extension of a wordstring.
pub(crate) const NAME_ROOM: u64 = 400;

/// The room of these with the number of data words.
pub(crate) const LONG_ROOM: u64 = 730;

/// The room of each word where all words of wordstrings are drawn: 34 pixels.
pub(crate) const WORD_ROOM: u64 = 340;

/// The room of a label and an extension in the area of a label word.
pub(crate) const LABEL_ROOM: u64 = 330;

/// The room of four digits in the area of a data word.
pub(crate) const DIGITS_ROOM: u64 = 264;

/// The width of the edge at which a data word begins.
pub(crate) const EDGE_WIDTH: u64 = 8;

/// The room of a transmit interval from which on timers are drawn: 200 pixels.
pub(crate) const NEAR_ROOM: u64 = 2000;

/// The room of the words of a gap that is whole above its line, of seven letters at most: 43 pixels.
pub(crate) const GAP_ROOM: u64 = 430;

/// How far the words of a gap reach to the left of where they end, at most, of thirteen letters: 79 pixels.
pub(crate) const GAP_REACH: u64 = 790;

/// The room of the words of a transmit interval, of nine letters at most: 55 pixels.
pub(crate) const INTERVAL_ROOM: u64 = 550;

/// The height of the line of a timer, and the width of the stroke at its end.
pub(crate) const LINE_HEIGHT: u64 = 14;

/// How far below the upper edge of its row the line of a gap lies.
pub(crate) const GAP_BELOW: u64 = 143;

/// How far below that edge the words of a gap stand.
pub(crate) const GAP_LINE: u64 = 118;

/// How far below that edge the line of a transmit interval lies.
pub(crate) const INTERVAL_BELOW: u64 = 275;

/// How far below that edge the words of a transmit interval stand: between the boxes of the row and those of the row above.
pub(crate) const INTERVAL_LINE: u64 = 44;

/// How far below that edge the stroke at the end of a transmit interval begins.
pub(crate) const STROKE_BELOW: u64 = 258;

/// The height of that stroke.
pub(crate) const STROKE_HEIGHT: u64 = 48;

/// How far below the upper edge of its row the tick of an offset begins.
pub(crate) const TICK_BELOW: u64 = 8;

/// The height of that tick, which ends above the boxes of the row.
pub(crate) const OFFSET_HEIGHT: u64 = 46;

/// The width of that tick.
pub(crate) const OFFSET_WIDTH: u64 = 20;

/// The middle of the words of a breach before the window.
pub(crate) const WORDS_LEAST: u64 = 2500;

/// The greatest middle of the words of a breach, so that they have room.
pub(crate) const WORDS_MOST: u64 = 9100;

/// The width of the line of a breach.
pub(crate) const LINE_WIDTH: u64 = 10;

/// The width of the line of a breach in the lane of its terminal.
pub(crate) const BREACH_WIDTH: u64 = 30;

/// Where the line of a breach begins, above the plot.
pub(crate) const HEAD_TOP: u64 = 1080;

/// The height of its part above the plot.
pub(crate) const HEAD_HEIGHT: u64 = 90;

/// The line of the words of a breach.
pub(crate) const BREACH_LINE: u64 = 870;

/// How far below the upper edge of its row the words of a fault stand in a lane.
pub(crate) const FAULT_LINE: u64 = 50;

/// How far behind its start they begin, beside its dash.
pub(crate) const FAULT_BESIDE: u64 = 50;

/// Where they begin at most, so that twenty letters have room.
pub(crate) const FAULT_MOST: u64 = 9000;
