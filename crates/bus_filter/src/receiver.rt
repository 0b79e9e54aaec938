//! A receiver of one receive line, word by word.
ghost use Rattle.std.specs.Prelude.{◌≡◌, ◌↔◌, IsTrue, IsSome};
ghost use Rattle.bus_filter.specs.Hearing.{Hearing, unmatched, answer, after, answer_by, position_by, is_taken, next_position};

use crate::matching::matches;
use bus_table::TakeLine;
use bus_words::{Ext, Kind, Label, Word, split_label};
use std::marker::Model;

/// What a word gave.
#[derive(Clone, Copy, Debug, PartialEq, Eq)]
pub enum Heard {
    /// Nothing: the wordstring doesn't match, or the position isn't one of the line's.
    Skipped,
    /// A label word began a wordstring that matches.
    Begins {
        /// Its label.
        label: Label,
        /// Its extension.
        ext: Ext,
    },
    /// A data word that the line takes.
    Kept(u16),
}

/// A receiver of one receive line, to which the words of wordstrings are given one after another.
#[derive(Debug, Drop)]
pub struct Receiver {
    line: TakeLine,
    position: Option<u32>,
}

impl Model for Receiver {
    ghost use Rattle.bus_filter.specs.Hearing.{Hearing};

    ghost Value = { Hearing };

    ghost view = { λ r. record { line = r.line; position = r.position } };
}

/// Whether a position is one of the line's.
fn takes_position(line: &TakeLine, position: u32) -> bool
    ensures { result ≡ is_taken line.now position }
{
    let first = u32::from(line.first);
    first <= position && position < first + u32::from(line.count)
}

/// The position behind a position, which stops behind the line's last one.
fn position_behind(line: &TakeLine, position: u32) -> u32
    ensures { result ≡ next_position line.now position }
{
    position
        .saturating_add(1)
        .min(u32::from(line.first) + u32::from(line.count))
}

impl Receiver {
    /// A receiver of this line, in no wordstring that matches.
    pub fn new(line: TakeLine) -> Receiver
        ensures { result ≡ unmatched line }
    {
        Receiver {
            line,
            position: None,
        }
    }

    /// Forgets all but the line.
    pub fn begin(&mut self)
        ensures { self.new ≡ unmatched self.old.line }
    {
        self.position = None;
    }

    /// Ends a wordstring that matches: the data words behind it are skipped.
    pub fn end(&mut self)
        ensures { self.new ≡ unmatched self.old.line }
    {
        self.position = None;
    }

    /// Whether the present wordstring matches the line.
    pub fn matching(&self) -> bool
        ensures { IsTrue result ↔ IsSome self.now.position }
    {
        self.position.is_some()
    }

    /// Takes the next word.
    ///
    /// A label word gives `Begins` exactly where it matches the line, and then the positions count from 0. A data word gives `Kept`
    /// exactly where the present wordstring matches and its position is from `first` to `first + count - 1`. Else `Skipped`; a label
    /// word that doesn't match ends the match.
    pub fn word(&mut self, word: Word) -> Heard
        ensures answer { result ≡ answer self.old word }
        ensures after { self.new ≡ after self.old word }
    {
        match word.kind {
            Kind::Label => self.label(word.value),
            Kind::Plain => self.data(word.value),
        }
    }

    /// Takes a label word.
    fn label(&mut self, value: u16) -> Heard
        ensures answer { result ≡ answer_by self.old Kind.Label value }
        ensures after { self.new ≡ record { line = self.old.line; position = position_by self.old Kind.Label value } }
    {
        let (label, ext) = split_label(value);
        if matches(&self.line, label, ext) {
            self.position = Some(0);
            Heard::Begins { label, ext }
        } else {
            self.position = None;
            Heard::Skipped
        }
    }

    /// Takes a data word.
    fn data(&mut self, value: u16) -> Heard
        ensures answer { result ≡ answer_by self.old Kind.Plain value }
        ensures after { self.new ≡ record { line = self.old.line; position = position_by self.old Kind.Plain value } }
    {
        let Some(position) = self.position else {
            return Heard::Skipped;
        };
        self.position = Some(position_behind(&self.line, position));
        if takes_position(&self.line, position) {
            Heard::Kept(value)
        } else {
            Heard::Skipped
        }
    }
}
