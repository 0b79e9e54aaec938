//! Whether a receive line matches, and what it takes.
ghost use Rattle.std.specs.Prelude.{◌≡◌};
ghost use Rattle.bus_filter.specs.Received.{matches as matches_in, selection as selection_in};

use bus_table::TakeLine;
use bus_words::{Ext, Label};

/// Whether a receive line matches the wordstrings of a label and an extension.
pub fn matches(line: &TakeLine, label: Label, ext: Ext) -> bool
    ensures { result ≡ matches_in line.now label ext }
{
    line.label == label
        && match line.ext {
            Some(one) => one == ext,
            None => true,
        }
}

/// The data words of a wordstring that a receive line takes.
pub(crate) fn selection<'a>(line: &TakeLine, words: &'a [u16]) -> &'a [u16]
    ensures { result.now ≡ selection_in line.now words.now }
{
    let first = usize::from(line.first).min(words.len());
    let behind = words.split_at(first).1;
    let count = usize::from(line.count).min(behind.len());
    behind.split_at(count).0
}
