//! The measures of pictures, in units of a tenth of a pixel. The definitions cite them.

/// A pixel has ten units.
pub const PIXEL: u64 = 10;

/// The width of a picture: 1040 pixels, so that its words can be read still where a column of 840 pixels shows it.
pub const PICTURE_WIDTH: u64 = 10400;

/// Where words begin that stand at the left edge of a picture.
pub const LEFT_MARGIN: u64 = 200;

/// Where words end that stand at the right edge of a picture.
pub const RIGHT_MARGIN: u64 = 10200;

/// The line of the words of the verdict.
pub const HEAD_LINE: u64 = 270;

/// The line of the words of the audit.
pub const ANSWER_LINE: u64 = 480;

/// The line of the words of the table, and of the counts.
pub const FACTS_LINE: u64 = 690;

/// The least room from mark to mark on an axis, so that the numbers of the longest trace fit: 120 pixels.
pub const MARK_ROOM: u64 = 1200;

/// The width of the line of a mark.
pub const MARK_WIDTH: u64 = 8;
