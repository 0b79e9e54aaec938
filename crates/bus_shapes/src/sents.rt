//! What pictures tell of each transmission of a list, in one walk over it.
ghost use Rattle.std.specs.Prelude.{◌≡◌, IfOk};
ghost use Rattle.std.specs.Iterator.{YieldsFirst, item_count};
ghost use Rattle.bus_strings.specs.Transmissions.{IsByMoment};
ghost use Rattle.bus_shapes.specs.Sending.{sents};

use crate::sent::Sent;
use bus_strings::limits::TERMINALS;
use bus_strings::{Marks, Transmission};
use std::alloc::{AllocError, Global};
use std::marker::Model;

/// What pictures tell of each transmission of a list, in order. It goes over the list once.
#[derive(Drop)]
pub struct Sents<'a> {
    list: &'a [Transmission],
    at: usize,
    before: u64,
    counts: [u64; TERMINALS],
    marks: Marks<'a>,
}

impl<'a> Model for Sents<'a> {
    ghost use Rattle.std.specs.Prelude.{List, drop};
    ghost use Rattle.bus_shapes.specs.Sayings as sayings;
    ghost use Rattle.bus_shapes.specs.Sending.{IsTelling, sents_from};

    ghost Value = { List sayings.Sent };

    ghost view = { λ s. sents_from s.list.now s.at (drop s.at s.list.now) };

    ghost invariant = { λ s. IsTelling s.list.now s.at s.before s.counts s.marks };
}

impl<'a> Sents<'a> {
    /// The list has to be ordered by moment.
    pub fn new(list: &'a [Transmission]) -> Self
        requires { IsByMoment list.now }
        ensures { result ≡ sents list.now }
    {
        Sents {
            list,
            at: 0,
            before: 0,
            counts: [0; TERMINALS],
            marks: Marks::new(list),
        }
    }
}

impl<'a> Iterator for Sents<'a> {
    type Item = Sent;

    ghost next_gives = { YieldsFirst (λ s. s) };

    ghost remaining = { item_count (λ s. s) };

    fn next(&mut self) -> Option<Sent> {
        if self.at == self.list.len() {
            return None;
        }
        let x = &self.list[self.at];
        let terminal = x.terminal as usize;
        let number = self.counts[terminal] + 1;
        let end = x.end();
        let garbled = self.marks.next() == Some(true);
        let sent = Sent {
            at: self.at,
            terminal: x.terminal,
            number,
            moment: x.moment,
            end,
            before: self.before,
            garbled,
        };
        self.counts[terminal] = number;
        self.before = self.before.max(end);
        self.at += 1;
        Some(sent)
    }
}

/// What pictures tell of each transmission of a list, in order, for who asks more than once. The list has to be ordered by moment. Fails
/// only where memory runs out.
pub fn all_sents(alloc: Global, list: &[Transmission]) -> Result<Vec<Sent>, AllocError>
    requires { IsByMoment list.now }
    ensures { IfOk result (λ told. told.items ≡ sents list.now) }
{
    Sents::new(list).collect(alloc)
}
