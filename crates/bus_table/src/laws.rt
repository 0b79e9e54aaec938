//! Laws of tables, their texts and what fits them, each the contract of a function that does nothing.
ghost use Rattle.std.specs.Prelude.{◌≡◌, ◌≤◌, ℕ, IsTrue, IsOk, List, Ok, Err, length};
ghost use Rattle.bus_strings.specs.Items.{Item};
ghost use Rattle.bus_strings.specs.Messages.{Message, bits};
ghost use Rattle.bus_table.specs.declared.mode.Mode.{Mode};
ghost use Rattle.bus_table.specs.declared.mode.Mode.TheVariants.{Aperiodic, Periodic};
ghost use Rattle.bus_table.specs.declared.error.TableError.{TableError};
ghost use Rattle.bus_table.specs.Canonical.{table_text};
ghost use Rattle.bus_table.specs.Filling.{filling_message};
ghost use Rattle.bus_table.specs.Fits.{fits, items_fit, is_shortest, is_longest};
ghost use Rattle.bus_table.specs.Gives.{Refuses};
ghost use Rattle.bus_table.specs.GoingOn.{WhatMayStandGoesOn};
ghost use Rattle.bus_table.specs.Hands.{GiveHands};
ghost use Rattle.bus_table.specs.Lengths.{shortest, longest};
ghost use Rattle.bus_table.specs.Ranges.{is_sender};
ghost use Rattle.bus_table.specs.Reading.{answer_of};
ghost use Rattle.bus_table.specs.Tables as tables;
ghost use Rattle.bus_table.specs.Text.{IsTableText};
ghost use Rattle.bus_table.specs.Valid.{is_valid};

use crate::table::Table;

/// Every table is valid, as each of its getters says: to call this makes it known, and leaves nothing in the built program.
pub fn table_is_valid(table: &Table)
    ensures { IsTrue (is_valid table.now) }
{
    table.sg();
}

/// A text of a valid table reads as that table.
pub fn text_reads_as_its_table()
    ensures { (text : List ℕ) (table : tables.Table) → IsTableText table text → IsTrue (is_valid table) → answer_of text ≡ Ok table }
{}

/// What reads as a table is a text of it, and the table is valid; and each refusal has its cause.
pub fn readings_have_their_cause()
    ensures found { (text : List ℕ) (table : tables.Table) → answer_of text ≡ Ok table → IsTableText table text × IsTrue (is_valid table) }
    ensures refused { (text : List ℕ) (error : TableError) → answer_of text ≡ Err error → Refuses text error }
{}

/// The canonical text of a valid table is a text of it, and so it reads as that table: to write what was read of it gives
/// the same text.
pub fn canonical_text_reads_as_its_table()
    ensures stands { (table : tables.Table) → IsTrue (is_valid table) → IsTableText table (table_text table) }
    ensures reads { (table : tables.Table) → IsTrue (is_valid table) → answer_of (table_text table) ≡ Ok table }
{}

/// Items that fit the senders of a valid table give these hands, whose messages fit.
pub fn fitting_items_give_hands()
    ensures { (table : tables.Table) (items : List Item) → IsTrue (is_valid table) → IsOk (items_fit table items) → GiveHands table items }
{}

/// A message that fits a sender is no shorter than the shortest and no longer than the longest of its messages.
pub fn fitting_messages_have_their_lengths()
    ensures least { (sender : tables.Sender) (message : Message) → IsTrue (fits sender message) → shortest sender ≤ bits message }
    ensures most { (sender : tables.Sender) (message : Message) → IsTrue (fits sender message) → bits message ≤ longest sender }
{}

/// The filling message of a sender fits it; in aperiodic mode it is the shortest of its messages, in periodic mode the
/// longest.
pub fn filling_messages_fit()
    ensures fits { (mode : Mode) (sender : tables.Sender) → IsTrue (is_sender sender) → IsTrue (fits sender (filling_message mode sender)) }
    ensures shortest { (sender : tables.Sender) → IsTrue (is_shortest sender (filling_message Aperiodic sender)) }
    ensures longest { (sender : tables.Sender) → IsTrue (is_longest sender (filling_message Periodic sender)) }
{}

/// The canonical text of a valid table has no more bytes than a table text may have.
pub fn canonical_text_is_short()
    ensures { (table : tables.Table) → IsTrue (is_valid table) → length (table_text table) ≤ 8388608 }
{}

/// What may stand where a text is refused is exactly what goes on: the keywords with which, at that line, the text of some table
/// begins that is the same before it, and the end where such a text is one.
pub fn what_may_stand_goes_on()
    ensures { WhatMayStandGoesOn }
{}
