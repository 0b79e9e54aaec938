//! The measures of the pictures of a page, in units of a tenth of a pixel. The definitions cite them.

/// Where the plot of a cycle begins.
pub(crate) const PLOT_LEFT: u64 = 1500;

/// How wide it is.
pub(crate) const PLOT_WIDTH: u64 = 8600;

/// Where words end that stand before the plot.
pub(crate) const WORDS_RIGHT: u64 = 1400;

/// The height of the boxes of a cycle.
pub(crate) const BOX_HEIGHT: u64 = 280;

/// How far below the upper edge of its box the line of words in it stands.
pub(crate) const BOX_LINE: u64 = 175;

/// How far below it the line of a gap is.
pub(crate) const GAP_BELOW: u64 = 130;

/// How high this is.
pub(crate) const GAP_HEIGHT: u64 = 20;

/// A box of this width has room for its terminal and its length.
pub(crate) const WIDE_BOX: u64 = 800;

/// A box of this width has room for its terminal.
pub(crate) const NARROW_BOX: u64 = 300;

/// The upper edge of the shortest cycle.
pub(crate) const SHORT_TOP: u64 = 340;

/// That of the longest.
pub(crate) const LONG_TOP: u64 = 1240;

/// The upper edge of the first of rows of bars.
pub(crate) const ROWS_TOP: u64 = 40;

/// How far these are apart.
pub(crate) const ROW_HEIGHT: u64 = 210;

/// The height of a bar.
pub(crate) const BAR_HEIGHT: u64 = 150;

/// How far below its upper edge the line of its words stands.
pub(crate) const BAR_LINE: u64 = 113;

/// Where bars begin that have the words of a rule before them. Behind them is room for the longest time, in the larger letters of print.
pub(crate) const RULES_LEFT: u64 = 2300;

/// How wide they are.
pub(crate) const RULES_WIDTH: u64 = 5500;

/// Where bars begin that have a terminal before them, with as much room behind.
pub(crate) const WAITS_LEFT: u64 = 800;

/// How wide they are.
pub(crate) const WAITS_WIDTH: u64 = 7000;

/// How far before its bar words end, and behind it words begin.
pub(crate) const BESIDE_BAR: u64 = 80;
