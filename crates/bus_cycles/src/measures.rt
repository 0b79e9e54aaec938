//! The measures of pictures of cycles, in units of a tenth of a pixel. The definitions cite them.

/// The left edge of the rows.
pub(crate) const PLOT_LEFT: u64 = 1500;

/// Their width.
pub(crate) const PLOT_WIDTH: u64 = 6700;

/// Where the moments end at which rows begin.
pub(crate) const BEGINS_RIGHT: u64 = 1440;

/// Where the loads of rows end.
pub(crate) const LOAD_RIGHT: u64 = 9540;

/// The line of the numbers of microseconds.
pub(crate) const UPPER_WORDS: u64 = 1210;

/// Where their marks begin.
pub(crate) const UPPER_TICKS: u64 = 1230;

/// How high these are.
pub(crate) const TICK_HEIGHT: u64 = 50;

/// The line of the numbers of bit times.
pub(crate) const LOWER_WORDS: u64 = 1390;

/// Where their lines begin.
pub(crate) const LOWER_TOP: u64 = 1420;

/// The line of the words on the rows.
pub(crate) const ROWS_LINE: u64 = 830;

/// Where the line of a mark begins.
pub(crate) const MARKS_TOP: u64 = 1450;

/// The width of the line of a mark: a pixel.
pub(crate) const LINE_WIDTH: u64 = 10;

/// How far behind its mark the words of a mark stand.
pub(crate) const BEHIND_MARK: u64 = 40;

/// How far before its mark those of the least cycle stand.
pub(crate) const BEFORE_MARK: u64 = 30;

/// The line of the words of marks.
pub(crate) const MARK_WORDS_LINE: u64 = 1530;

/// The line of those of the least cycle.
pub(crate) const LEAST_WORDS_LINE: u64 = 1630;

/// Rows that reach further down have axes below them too: 800 pixels.
pub(crate) const LONG_PICTURE: u64 = 8000;

/// How far below the rows the numbers of bit times stand there.
pub(crate) const LOWER_FOOT: u64 = 150;

/// How far below them those of time stand.
pub(crate) const UPPER_FOOT: u64 = 320;

/// How far below them the ticks of that axis begin.
pub(crate) const TICKS_FOOT: u64 = 170;

/// How much of a picture lies below its rows.
pub(crate) const FOOT_HEIGHT: u64 = 100;

/// The same, where axes stand there.
pub(crate) const LONG_FOOT: u64 = 420;

/// The upper edge of the first row.
pub(crate) const ROWS_TOP: u64 = 1690;

/// Where the line of an offset begins: a little above the first row.
pub(crate) const DUE_TOP: u64 = 1650;

/// How wide it is: less than a pixel, so that it is quiet.
pub(crate) const DUE_WIDTH: u64 = 6;

/// Where the numbers of the first and of the last terminal of a row begin.
pub(crate) const ENDS_LEFT: u64 = 8650;

/// Where a row that is cut at its beginning is drawn open: left of all boxes.
pub(crate) const OPEN_LEFT: u64 = 1450;

/// How wide that is.
pub(crate) const OPEN_WIDTH: u64 = 40;

/// How far to the right a row that is cut at its end is drawn open.
pub(crate) const OPEN_RIGHT: u64 = 8230;

/// A box that is narrower has no room for a hatching: six pixels.
pub(crate) const NARROW_BOX: u64 = 60;

/// The height of a row in a picture without garbled transmissions.
pub(crate) const PLAIN_ROW: u64 = 140;

/// The height of a row in a picture with some, in which three of them have room for their numbers one below the other.
pub(crate) const SPLIT_ROW: u64 = 320;

/// How far from the upper and from the lower edge of its row a box stays.
pub(crate) const BOX_BELOW: u64 = 10;

/// How far from the upper and from the lower edge of its slot a box stays.
pub(crate) const SLOT_BELOW: u64 = 6;

/// How far below its middle the line of words in the middle of a row or of a box stands.
pub(crate) const MIDDLE_LINE: u64 = 35;

/// The room of a number of one digit.
pub(crate) const SHORT_NUMBER: u64 = 132;

/// That of a number of two digits.
pub(crate) const MIDDLE_NUMBER: u64 = 198;

/// That of a number of three digits.
pub(crate) const LONG_NUMBER: u64 = 264;

/// The width of the line of a breach.
pub(crate) const BREACH_WIDTH: u64 = 20;

/// The height of each of its parts.
pub(crate) const BREACH_HEIGHT: u64 = 40;

/// How far above the upper edge of its row its first part begins, which ends where the boxes begin.
pub(crate) const BREACH_OVER: u64 = 30;

/// How far above the lower edge of its row its second part begins: where the boxes end.
pub(crate) const BREACH_BELOW: u64 = 10;

/// Where the word of a breach or of a fault begins: behind the boxes of all rows, and behind where a row is drawn open.
pub(crate) const BREACH_LEFT: u64 = 8230;

/// The width of each of the two parts of the mark of a fault.
pub(crate) const FAULT_WIDTH: u64 = 40;

/// Their height. The first begins at the upper edge of its row, the second ends at the lower one.
pub(crate) const FAULT_HEIGHT: u64 = 30;

// ---- the legend
/// The upper edge of its boxes.
pub(crate) const LEGEND_TOP: u64 = 920;

/// The line of their words.
pub(crate) const LEGEND_LINE: u64 = 1000;
