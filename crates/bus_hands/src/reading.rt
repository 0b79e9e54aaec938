//! Reading the hands of a table's senders from a messages text. Each item is dealt out as it is read, so that no list of items is kept.
ghost use Rattle.std.specs.Prelude.{◌≡◌, ◌<◌, ◌^◌, [], ◌∷◌, ◌++◌, ◌+◌, IsTrue, length, map, List, Ok, IfOk, IfErr, OnOk};
ghost use Rattle.std.specs.Prelude.{nat_eq};
ghost use Rattle.std.specs.List.{IsDistinct};
ghost use Rattle.bus_text.specs.AllOf.{all_of};
ghost use Rattle.bus_text.specs.Gives.{Fails};
ghost use Rattle.bus_strings.specs.Items.{Item};
ghost use Rattle.bus_strings.specs.Reading.{item_line};
ghost use Rattle.bus_hands.specs.Dealt.{GivesHands, hands_reading};
ghost use Rattle.bus_table.specs.Hands.{are_hands};
ghost use Rattle.bus_hands.specs.inside.Dealing.{AreDealt, IsTried};
ghost use Rattle.bus_hands.specs.inside.Placed.{ArePlaces};

use crate::dealing::{deal, empty_hands};
use crate::error::HandsError;
use crate::fitting::item_fits;
use crate::places::Places;
use bus_strings::{MessagesError, Payload, item_lines, read_item};
use bus_table::{FitError, Hand, Sender, Table};
use bus_text::Lines;
use std::alloc::{AllocError, Global};

/// The hands of the items that were read, and whether each fits its sender. Behind the first that doesn't none is dealt out.
#[derive(Drop)]
struct Deal {
    hands: Vec<Hand>,
    fit: Result<(), FitError>,
}

/// Deals item `k` out, if it fits its sender.
fn try_item(
    alloc: Global,
    k: u64,
    senders: &[Sender],
    places: &Places,
    item: Payload,
    hands: &mut Vec<Hand>,
) -> Result<Result<(), FitError>, AllocError>
    requires places { ArePlaces senders.now places.now.by_number }
    requires distinct { IsDistinct nat_eq (map (λ s. s.number) senders.now) }
    requires long { length hands.old.items ≡ length senders.now }
    ensures tried { IfOk result (IsTried k senders.now item hands.old.items hands.new.items) }
    ensures long { OnOk result (length hands.new.items ≡ length senders.now) }
{
    if let Err(error) = item_fits(k, senders, places, &item) {
        return Ok(Err(error));
    }
    deal(alloc, senders, places, item, hands)?;
    Ok(Ok(()))
}

/// Deals item `k` out, if all before it fit, and it does.
fn deal_item(
    alloc: Global,
    k: u64,
    senders: &[Sender],
    places: &Places,
    item: Payload,
    deal: &mut Deal,
) -> Result<(), AllocError>
    requires places { ArePlaces senders.now places.now.by_number }
    requires distinct { IsDistinct nat_eq (map (λ s. s.number) senders.now) }
    requires long { length deal.old.hands.items ≡ length senders.now }
    ensures dealt { OnOk result ((done : List Item) → k ≡ length done + 1
        → AreDealt senders.now done deal.old.hands.items deal.old.fit
        → AreDealt senders.now (done ++ item ∷ []) deal.new.hands.items deal.new.fit) }
    ensures long { OnOk result (length deal.new.hands.items ≡ length senders.now) }
{
    if deal.fit.is_ok() {
        deal.fit = try_item(alloc, k, senders, places, item, &mut deal.hands)?;
    }
    Ok(())
}

/// Deals out the items of these lines.
fn deal_lines(alloc: Global, senders: &[Sender], lines: Lines<'_>) -> Result<Deal, MessagesError>
    requires distinct { IsDistinct nat_eq (map (λ s. s.number) senders.now) }
    requires few { length lines < 2 ^ 63 }
    ensures dealt { IfOk result (λ deal. (items : List Item) × (all_of item_line lines.entry ≡ Ok items)
        × AreDealt senders.now items deal.hands.items deal.fit) }
    ensures fails { IfErr result (λ error. Fails error (all_of item_line lines.entry)) }
{
    let places = Places::new(senders);
    let mut words = Vec::new(alloc);
    let mut deal = Deal {
        hands: empty_hands(alloc, senders)?,
        fit: Ok(()),
    };
    let mut k = 1;
    for line in lines {
        let item = read_item(alloc, &mut words, line)?;
        deal_item(alloc, k, senders, &places, item, &mut deal)?;
        k += 1;
    }
    Ok(deal)
}

/// Reads a messages text and deals its items out: one hand for each sender in the order of the table, whose messages are the sender's
/// items in their order, with the labels and extensions of its SEND lines. It is what [`read_messages`](bus_strings::read_messages),
/// [`fits`](crate::fits) and [`hands`](crate::hands) do one after the other, in less memory: no list of items is kept.
///
/// [`HandsError::Text`] comes exactly where the text stands for no items, [`HandsError::Unfit`] exactly where it stands for some of which
/// one doesn't fit its sender, and [`HandsError::Memory`] only where memory ran out.
pub fn read_hands(alloc: Global, table: &Table, text: &[u8]) -> Result<Vec<Hand>, HandsError>
    ensures exact { GivesHands result (hands_reading table.now text.now) }
    ensures fit { IfOk result (λ made. IsTrue (are_hands table.now.senders made.items)) }
{
    let lines = match item_lines(text) {
        Ok(lines) => lines,
        Err(error) => return Err(HandsError::from(error)),
    };
    let deal = deal_lines(alloc, table.senders(), lines)?;
    match deal.fit {
        Ok(()) => Ok(deal.hands),
        Err(error) => Err(HandsError::Unfit(error)),
    }
}
