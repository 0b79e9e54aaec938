//! Why an item of a messages text or of a cable text doesn't fit its sender.
ghost use Rattle.std.specs.Prelude.{◌≡◌, ◌+◌, ◌<◌, ◌≤◌, ◌^◌, length};
ghost use Rattle.bus_strings.specs.Items.{numbers};
ghost use Rattle.bus_table.specs.Fits.{allows};
ghost use Rattle.bus_diagnosis.specs.Misfits as misfits;

use bus_strings::Payload;
use bus_table::{FitError, SendLine, Table, sender_of};
use bus_text::{Lines, line_after};

/// Why an item doesn't fit its sender.
#[derive(Clone, Copy, Debug, PartialEq, Eq)]
pub enum Misfit {
    /// Its terminal is no sender of the table.
    Stranger,
    /// It has so many wordstrings, and its sender has another number of SEND lines.
    Strings {
        strings: u64,
        lines: u64,
    },
    /// This wordstring, counted from 1, is the first whose number of data words isn't from the least to the most of its SEND line.
    Words {
        string: u64,
        words: u64,
        least: u16,
        most: u16,
    },
}

/// An item that doesn't fit its sender.
#[derive(Clone, Copy, Debug, PartialEq, Eq)]
pub struct Unfit {
    /// Which item, counted from 1.
    pub item: u64,
    /// On which physical line it stands.
    pub line: u64,
    /// Its terminal.
    pub terminal: u8,
    /// Why it doesn't fit.
    pub misfit: Misfit,
}

/// Whether a line may have so many data words.
fn allows(line: &SendLine, words: usize) -> bool
    ensures { result ≡ allows line.now words }
{
    (usize::from(line.least)..=usize::from(line.most)).contains(&words)
}

/// Why wordstrings aren't those of SEND lines.
fn shape_misfit(sends: &[SendLine], strings: &[Vec<u16>]) -> Misfit
    ensures { result ≡ misfits.shape_misfit sends.now (numbers strings.now) }
{
    let count = strings.len() as u64;
    if sends.len() != strings.len() {
        return Misfit::Strings {
            strings: count,
            lines: sends.len() as u64,
        };
    }
    for (k, line) in sends.iter().enumerate() {
        let words = strings[k].len();
        if !allows(line, words) {
            return Misfit::Words {
                string: k as u64 + 1,
                words: words as u64,
                least: line.least,
                most: line.most,
            };
        }
    }
    Misfit::Strings {
        strings: count,
        lines: count,
    }
}

/// Why an item doesn't fit its sender.
fn misfit_of(table: &Table, item: &Payload) -> Misfit
    ensures { result ≡ misfits.misfit_of table.now item.now }
{
    match sender_of(table.senders(), item.terminal) {
        None => Misfit::Stranger,
        Some(sender) => shape_misfit(sender.sends(), &item.strings),
    }
}

/// The physical line of the line at a place, counted from 0, of those that aren't skipped.
fn line_at(text: &[u8], place: u64) -> u64
    ensures { result ≡ misfits.line_at text.now place }
{
    let mut ahead = place;
    for line in Lines::new(text) {
        if ahead == 0 {
            return line.number;
        }
        ahead -= 1;
    }
    line_after(text)
}

/// Which item doesn't fit, counted from 1.
pub(crate) fn item_number(error: FitError) -> u64
    ensures { result ≡ misfits.item_number error }
{
    match error {
        FitError::Stranger(item) | FitError::Shape(item) => item,
    }
}

/// The item of this number, counted from 1, which doesn't fit its sender. So many lines stand between the first and the items.
pub(crate) fn unfit_at(
    table: &Table,
    text: &[u8],
    before: u64,
    items: &[Payload],
    item: u64,
) -> Unfit
    requires some { 1 ≤ item }
    requires within { item ≤ length items.now }
    requires few { before + length items.now < 2 ^ 64 }
    ensures { result ≡ misfits.unfit_at table.now text.now before items.now item }
{
    let at = &items[(item - 1) as usize];
    Unfit {
        item,
        line: line_at(text, before + item),
        terminal: at.terminal,
        misfit: misfit_of(table, at),
    }
}
