//! What the sentences mean, each a law: the contract of a function that does nothing.
ghost use Rattle.bus_diagnosis.specs.Laws.{BorneCablesAreOrderly, NamedItemIsFirst, RightMessagesRun, WholeTracesAreTraces};

use bus_cable::laws::borne_is_orderly;
use bus_trace::laws::traces_read_back;

/// Messages of which nothing is wrong give each sender as many, and their closed schedule ends within its limit: an accepted table runs
/// with them.
pub fn right_messages_run()
    ensures { RightMessagesRun }
{}

/// The item that is named is the first that doesn't fit its sender, and it doesn't for the reason that is told.
pub fn named_item_is_first()
    ensures { NamedItemIsFirst }
{}

/// On a cable that an accepted table bears, with the wakes and the messages of its text, the closed schedule is what its senders do: they
/// take turns.
pub fn borne_cables_are_orderly()
    ensures { BorneCablesAreOrderly }
{
    borne_is_orderly();
}

/// A trace text of which nothing is wrong begins with the text of a trace of as many transmissions, below that horizon.
pub fn whole_traces_are_traces()
    ensures { WholeTracesAreTraces }
{
    traces_read_back();
}
