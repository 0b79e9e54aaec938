//! Laws of what the commands write. Each is the contract of a function that does nothing.
ghost use Rattle.bus_tool.specs.DrillLaws.{DrillsAreAccepted};
ghost use Rattle.bus_tool.specs.TextLaws.{OneCommandText, AnswersHaveTexts, SendersHaveHolds};
ghost use Rattle.bus_tool.specs.TextLaws.{ObservedIsFoundLawful, RunIsFoundLawful, DropIsFoundLawful, RunIsReceivedBehind};

use bus_audit::laws::observed_is_lawful;
use bus_dropout::laws::dropout_is_lawful;
use bus_medium::laws::{one_cable_list, one_lawful_list};
use bus_schedule::laws::{accepted_is_closed, closed_ends_in_cycles, even_hands_agree};
use bus_table::laws::{fitting_items_give_hands, readings_have_their_cause};
use bus_trace::laws::traces_read_back;
use bus_vectors::laws::{made_items_are_even, made_items_fit, made_tables_are_valid};

/// What the words and the texts make a command write is one text: there is no other, and there is one where an answer is due.
pub fn one_text_of_a_command()
    ensures once { OneCommandText }
    ensures exists { AnswersHaveTexts }
{
    one_lawful_list();
    one_cable_list();
    readings_have_their_cause();
    fitting_items_give_hands();
    accepted_is_closed();
    dropout_is_lawful();
    even_hands_agree();
}

/// Each sender of a valid table has one hold, with the number of its terminal and of its messages; there is no other, and they rise by
/// number.
pub fn senders_have_holds()
    ensures { SendersHaveHolds }
{}

/// An audit accepts what `observe`, `run` and `drop` write, whatever collides: it finds nothing against a trace of a valid table and of
/// items that fit it.
pub fn audit_accepts_what_is_observed()
    ensures observed { ObservedIsFoundLawful }
    ensures run { RunIsFoundLawful }
    ensures drop { DropIsFoundLawful }
{
    observed_is_lawful();
    fitting_items_give_hands();
    senders_have_holds();
}

/// `receive`, of a text that `run` or `drop` wrote and with its table, writes what stands there behind the trace, where the text of the
/// trace is within its limit.
pub fn receive_of_a_run_is_its_tail()
    ensures { RunIsReceivedBehind }
{
    traces_read_back();
}

/// Every drill's table is accepted, its senders have as many messages each, and it ends at 13,914,000 or before: no drill is too long.
pub fn drills_are_accepted()
    ensures { DrillsAreAccepted }
{
    made_tables_are_valid();
    made_items_fit();
    made_items_are_even();
    fitting_items_give_hands();
    closed_ends_in_cycles();
}
