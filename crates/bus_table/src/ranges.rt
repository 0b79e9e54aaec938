//! The ranges of the numbers of a table.
ghost use Rattle.std.specs.Prelude.{◌≡◌};
ghost use Rattle.std.specs.List.{list_all};
ghost use Rattle.bus_table.specs.Ranges as ranges;

use crate::line::{SendLine, TakeLine};
use bus_strings::limits::{MOST_STRINGS, MOST_TERMINAL, MOST_WORDS};

/// The least transmit interval, in bit times.
pub const LEAST_TI: u32 = 1000;

/// The greatest transmit interval, in bit times: every offset is below it.
pub const MOST_TI: u32 = 128_000;

/// The least synchronization gap, in bit times.
pub const LEAST_SG: u32 = 9;

/// The greatest synchronization gap, in bit times.
pub const MOST_SG: u32 = 1024;

/// The least terminal gap, in bit times.
pub const LEAST_TG: u32 = 8;

/// The greatest terminal gap, in bit times.
pub const MOST_TG: u32 = 256;

/// The most TAKE lines of a terminal.
pub const MOST_TAKES: usize = 64;

/// Whether a number is a terminal number.
pub fn is_number(number: u8) -> bool
    ensures { result ≡ ranges.is_number number }
{
    (1..=MOST_TERMINAL).contains(&number)
}

/// Whether so many bit times are a transmit interval.
pub fn is_ti(ti: u32) -> bool
    ensures { result ≡ ranges.is_ti ti }
{
    (LEAST_TI..=MOST_TI).contains(&ti)
}

/// Whether so many bit times are a synchronization gap.
pub fn is_sg(sg: u32) -> bool
    ensures { result ≡ ranges.is_sg sg }
{
    (LEAST_SG..=MOST_SG).contains(&sg)
}

/// Whether so many bit times are a terminal gap.
pub fn is_tg(tg: u32) -> bool
    ensures { result ≡ ranges.is_tg tg }
{
    (LEAST_TG..=MOST_TG).contains(&tg)
}

/// Whether so many bit times are an offset.
pub fn is_offset(at: u32) -> bool
    ensures { result ≡ ranges.is_offset at }
{
    at < MOST_TI
}

/// Whether the numbers of a SEND line are in their ranges.
fn is_send_line(line: &SendLine) -> bool
    ensures { result ≡ ranges.is_send_line line.now }
{
    // The types of the label and of the extension keep their ranges, which are known from here on.
    let _ranges = (line.label.value(), line.ext.value());
    line.least <= line.most && usize::from(line.most) <= MOST_WORDS
}

/// Whether the numbers of a TAKE line are in their ranges.
fn is_take_line(line: &TakeLine) -> bool
    ensures { result ≡ ranges.is_take_line line.now }
{
    // The types of the label and of the extension keep their ranges, which are known from here on.
    let _ranges = (line.label.value(), line.ext.map(|ext| ext.value()));
    usize::from(line.first) < MOST_WORDS && (1..=MOST_WORDS).contains(&usize::from(line.count))
}

/// Whether the numbers of each of these SEND lines are in their ranges.
fn each_send_line(sends: &[SendLine]) -> bool
    ensures { result ≡ list_all ranges.is_send_line sends.now }
{
    sends.iter().all(|line| is_send_line(line))
}

/// Whether the numbers of each of these TAKE lines are in their ranges.
fn each_take_line(takes: &[TakeLine]) -> bool
    ensures { result ≡ list_all ranges.is_take_line takes.now }
{
    takes.iter().all(|line| is_take_line(line))
}

/// Whether there are 1 to 31 SEND lines, and the numbers of each are in their ranges.
pub fn are_send_lines(sends: &[SendLine]) -> bool
    ensures { result ≡ ranges.are_send_lines sends.now }
{
    (1..=MOST_STRINGS).contains(&sends.len()) && each_send_line(sends)
}

/// Whether there are at most 64 TAKE lines, and the numbers of each are in their ranges.
pub fn are_take_lines(takes: &[TakeLine]) -> bool
    ensures { result ≡ ranges.are_take_lines takes.now }
{
    takes.len() <= MOST_TAKES && each_take_line(takes)
}
