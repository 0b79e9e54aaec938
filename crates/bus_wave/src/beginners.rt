//! The senders of a table by the label words with which their messages begin, so that none is looked for.
ghost use Rattle.std.specs.Prelude.{◌≡◌, ◌==◌, ℕ, IfOk, replicate};
ghost use Rattle.std.specs.Option.{option_copied};
ghost use Rattle.bus_wave.specs.inside.Beginning.{ArePlaces};
ghost use Rattle.bus_wave.specs.Judging.{begins, beginner};

use bus_table::{Sender, Table};
use std::alloc::{AllocError, Global};

/// How many label words there are.
const LABEL_WORDS: usize = 65_536;

/// The senders of a table, and the place of one for each label word, from 1: 0 where none begins with it.
#[derive(Drop)]
pub(crate) struct Beginners<'t> {
    senders: &'t [Sender],
    places: Vec<u8>,
    ghost placed: { ArePlaces senders.now places.items },
}

/// So many zeros.
fn zeros(alloc: Global, count: usize) -> Result<Vec<u8>, AllocError>
    ensures { IfOk result (λ zeros. zeros.items ≡ replicate count 0) }
{
    vec![in alloc; 0; count]
}

/// The label word with which the messages of a sender begin.
fn first_word(sender: &Sender) -> u16
    ensures { (value : ℕ) → begins value sender.now.sends ≡ (value == result) }
{
    let line = sender.sends()[0];
    16 * line.label.value() + u16::from(line.ext.value())
}

impl<'t> Beginners<'t> {
    /// Those of a table. Of several that begin alike it would be the first.
    pub(crate) fn new(alloc: Global, table: &'t Table) -> Result<Beginners<'t>, AllocError>
        ensures { IfOk result (λ beginners. beginners.senders.now ≡ table.now.senders) }
    {
        let senders = table.senders();
        let mut places = zeros(alloc, LABEL_WORDS)?;
        let mut place = senders.len();
        while place > 0 {
            let word = first_word(&senders[place - 1]);
            places[usize::from(word)] = place as u8;
            place -= 1;
        }
        Ok(Beginners { senders, places })
    }

    /// The sender whose messages begin with a label word.
    pub(crate) fn find(&self, value: u16) -> Option<&'t Sender>
        ensures { option_copied result ≡ beginner self.now.senders.now value }
    {
        let place = usize::from(self.places[usize::from(value)]).checked_sub(1)?;
        self.senders.get(place)
    }
}
