//! Laws of messages, transmissions and texts, each the contract of a function that does nothing.
ghost use Rattle.std.specs.Prelude.{◌≡◌, ◌≤◌, ℕ, List, Ok, length};
ghost use Rattle.bus_strings.specs.Items.{Item};
ghost use Rattle.bus_strings.specs.Grammar.{IsMessagesText};
ghost use Rattle.bus_strings.specs.Reading.{messages_reading};
ghost use Rattle.bus_strings.specs.PulseLaws.{FirstIsOn, LastIsOn, QuietBehind, PulseSoon, OnWithinPulse, NextPulse, LastPulseEnds};
ghost use Rattle.bus_strings.specs.Shares.{SharesAreNearest};
ghost use Rattle.bus_strings.specs.OverlapLaws.{OverlapsMeet, NeighboursTell, AscendingIsByMoment, ClearIsUnmarked};

/// A messages text reads as its items, of which it has no more than bytes, and what reads as items is a messages text of them. Laws, with
/// no work.
pub fn texts_read_as_their_items()
    ensures again { (text : List ℕ) (items : List Item) → IsMessagesText items text → messages_reading text ≡ Ok items }
    ensures found { (text : List ℕ) (items : List Item) → messages_reading text ≡ Ok items → IsMessagesText items text }
    ensures few { (text : List ℕ) (items : List Item) → messages_reading text ≡ Ok items → length items ≤ length text }
{}

/// What follows of the pulses of a message, whatever its words: laws, with no work.
pub fn pulses_cover()
    ensures first { FirstIsOn }
    ensures last { LastIsOn }
    ensures behind { QuietBehind }
    ensures soon { PulseSoon }
    ensures within { OnWithinPulse }
    ensures next { NextPulse }
    ensures ends { LastPulseEnds }
{}

/// Two transmissions overlap exactly where some moment lies in the spans of both; and in a list that is ordered by
/// moment the entries before an entry and the next one tell whether it is garbled, and where none overlap, none is. Laws, with no work.
pub fn neighbours_tell()
    ensures meet { OverlapsMeet }
    ensures neighbours { NeighboursTell }
    ensures ascending { AscendingIsByMoment }
    ensures clear { ClearIsUnmarked }
{}

/// A share is the nearest number of tenths of a percent, a half up. A law, with no work.
pub fn shares_are_nearest()
    ensures { SharesAreNearest }
{}
