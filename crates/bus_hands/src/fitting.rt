//! Whether items fit the lines of their senders.
ghost use Rattle.std.specs.Prelude.{◌≡◌};
ghost use Rattle.std.specs.Option.{option_copied};
ghost use Rattle.bus_strings.specs.Items.{numbers};
ghost use Rattle.bus_table.specs.Fits as fits;
ghost use Rattle.bus_hands.specs.inside.Placed.{ArePlaces};

use crate::places::Places;
use bus_strings::{Payload, Payloads};
use bus_table::{FitError, SendLine, Sender, Table, allows};

/// The sender with this number, found by its place; None where there is none.
fn sender_in<'a>(senders: &'a [Sender], places: &Places, number: u8) -> Option<&'a Sender>
    requires { ArePlaces senders.now places.now.by_number }
    ensures { option_copied result ≡ fits.sender_of senders.now number }
{
    let place = places.of(senders, number)?;
    Some(&senders[place])
}

/// Whether there are as many strings as lines, and on each line a number of data words that it may have.
fn has_shape(sends: &[SendLine], strings: &[Vec<u16>]) -> bool
    ensures { result ≡ fits.has_shape sends.now (numbers strings.now) }
{
    if sends.len() != strings.len() {
        return false;
    }
    for (k, line) in sends.iter().enumerate() {
        if !allows(line, strings[k].len()) {
            return false;
        }
    }
    true
}

/// Whether item `k` fits the sender of its terminal.
pub(crate) fn item_fits(
    k: u64,
    senders: &[Sender],
    places: &Places,
    item: &Payload,
) -> Result<(), FitError>
    requires { ArePlaces senders.now places.now.by_number }
    ensures { result ≡ fits.item_fit k senders.now item.now }
{
    let Some(sender) = sender_in(senders, places, item.terminal) else {
        return Err(FitError::Stranger(k));
    };
    if has_shape(sender.sends(), &item.strings) {
        Ok(())
    } else {
        Err(FitError::Shape(k))
    }
}

/// Whether each of these items fits, the first being item 1.
fn items_fit(senders: &[Sender], items: &[Payload]) -> Result<(), FitError>
    ensures { result ≡ fits.fit_from 1 senders.now items.now }
{
    let places = Places::new(senders);
    let mut k = 1;
    for item in items {
        item_fits(k, senders, &places, item)?;
        k += 1;
    }
    Ok(())
}

/// Whether each item fits the sender of its terminal, or else the first that doesn't: `Stranger` exactly where its
/// terminal is no sender, else `Shape` exactly where its strings aren't of the shape that the sender's lines ask for.
pub fn fits(table: &Table, payloads: &Payloads) -> Result<(), FitError>
    ensures { result ≡ fits.items_fit table.now payloads.now }
{
    items_fit(table.senders(), &payloads.items)
}
