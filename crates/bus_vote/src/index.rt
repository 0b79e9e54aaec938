//! The finds of as many labels as there is room for, pass by pass.
ghost use Rattle.std.specs.Prelude.{◌≡◌, IfSome};
ghost use Rattle.bus_vote.specs.inside.Finds.{AreFinds};
ghost use Rattle.bus_vote.specs.inside.Walks.{IsSent};

use crate::finds::{Find, Finds, MOST_FINDS, gather, is_wanted};
use crate::label::VotedLabel;
use crate::pace::gap_of;
use crate::scan::voted_label;
use arrayvec::ArrayVec;
use bus_strings::{Transmission, Wordstring};
use bus_table::Table;
use bus_words::Label;
use std::marker::Model;

/// How many labels there are.
pub(crate) const LABEL_COUNT: u16 = 4096;

const LABELS: usize = LABEL_COUNT as usize;

/// With fewer SEND lines walks take no longer than counting the wordstrings.
const FEW_LINES: usize = 30;

/// How many looks of a walk take as long as a find.
const LOOKS_A_FIND: usize = 8;

/// Counts wordstrings by label.
fn count_strings(counts: &mut [u32; LABELS], strings: &[Wordstring]) {
    for string in strings {
        let label = usize::from(string.label().value());
        counts[label] = counts[label].saturating_add(1);
    }
}

/// How many wordstrings each label has in a list.
fn counts(list: &[Transmission]) -> [u32; LABELS] {
    let mut counts = [0; LABELS];
    for x in list {
        count_strings(&mut counts, x.message.strings());
    }
    counts
}

/// Whether a table has so many SEND lines that finds may be sooner there than walks.
fn has_many_lines(table: &Table) -> bool {
    let mut lines = 0usize;
    for sender in table.senders() {
        lines = lines.saturating_add(sender.sends().len());
    }
    lines >= FEW_LINES
}

/// About how many transmissions a walk of a terminal looks at.
fn looks(places: usize, gaps: Option<&[usize]>, terminal: u8) -> usize {
    places / gap_of(gaps, terminal).unwrap_or(1).max(1)
}

/// About how many transmissions the walks of a voted label look at.
fn all_looks(places: usize, gaps: Option<&[usize]>, voted: &VotedLabel) -> usize {
    looks(places, gaps, voted.first.terminal)
        .saturating_add(looks(places, gaps, voted.second.terminal))
        .saturating_add(looks(places, gaps, voted.third.terminal))
}

/// Whether a voted label with so many wordstrings is looked for: there is room for its finds, and walks would take longer.
fn is_rare(places: usize, gaps: Option<&[usize]>, voted: &VotedLabel, count: usize) -> bool {
    count <= MOST_FINDS && count * LOOKS_A_FIND <= all_looks(places, gaps, voted)
}

/// The finds of some labels of a list. It is seen as the list.
#[derive(Drop)]
pub(crate) struct Index<'a> {
    list: &'a [Transmission],
    // By label, how many wordstrings it has, or more where that wasn't counted.
    counts: [u32; LABELS],
    // By label, whether it was looked for in the last pass.
    wanted: [bool; LABELS],
    finds: Finds,
    // Whether there was room for all finds.
    is_whole: bool,
    // The labels from here on weren't looked for yet.
    behind: u16,
}

impl<'a> Model for Index<'a> {
    ghost use Rattle.std.specs.Prelude.{◌≡◌, List, length, true};
    ghost use Rattle.bus_strings.specs.Messages.{Entry};
    ghost use Rattle.bus_vote.specs.inside.Finds.{finds_before};
    ghost use Rattle.bus_vote.specs.inside.Walks.{IsSent};

    ghost Value = { List Entry };

    ghost view = { λ i. i.list.now };

    ghost invariant = { λ i. IsSent i.list.now
        × (i.is_whole ≡ true → i.finds.items ≡ finds_before i.wanted i.list.now (length i.list.now)) };
}

impl<'a> Index<'a> {
    /// Nothing was looked for yet.
    pub fn new(list: &'a [Transmission], table: &Table) -> Self
        requires { IsSent list.now }
        ensures { result ≡ list.now }
    {
        let counts = if has_many_lines(table) {
            counts(list)
        } else {
            [u32::MAX; LABELS]
        };
        Index {
            list,
            counts,
            wanted: [false; LABELS],
            finds: ArrayVec::new(),
            is_whole: false,
            behind: 0,
        }
    }

    /// How many finds a label of a table has, where it is voted and a pass finds it sooner than walks.
    fn load(&self, table: &Table, gaps: Option<&[usize]>, label: Label) -> Option<usize> {
        let voted = voted_label(table, label)?;
        let count = self.counts[usize::from(label.value())] as usize;
        if is_rare(self.list.len(), gaps, &voted, count) {
            Some(count)
        } else {
            None
        }
    }

    /// By label, whether it is looked for together with a first one, as many as there is room for; and the number of the first behind them.
    fn choose(&self, table: &Table, gaps: Option<&[usize]>, from: u16) -> ([bool; LABELS], u16) {
        let mut wanted = [false; LABELS];
        let mut room = MOST_FINDS;
        for number in from..LABEL_COUNT {
            if let Some(load) = self.load(table, gaps, Label::new(number).unwrap()) {
                if load > room {
                    return (wanted, number);
                }
                room -= load;
                wanted[usize::from(number)] = true;
            }
        }
        (wanted, LABEL_COUNT)
    }

    /// Makes a pass for a label and as many behind it as there is room for, where that is sooner than walks and wasn't done yet.
    pub fn look_for(&mut self, table: &Table, gaps: Option<&[usize]>, label: Label)
        ensures { self.new ≡ self.old }
    {
        if label.value() < self.behind || self.load(table, gaps, label).is_none() {
            return;
        }
        let (wanted, behind) = self.choose(table, gaps, label.value());
        self.wanted = wanted;
        self.behind = behind;
        self.is_whole = gather(&mut self.finds, &self.wanted, self.list);
    }

    /// The finds of a label, where the last pass has them.
    pub fn finds(&self, label: Label) -> Option<&[Find]>
        ensures { IfSome result (λ finds. AreFinds self.now finds.now label) }
    {
        if self.is_whole && is_wanted(&self.wanted, label) {
            Some(self.finds.as_slice())
        } else {
            None
        }
    }
}
