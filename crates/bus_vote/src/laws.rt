//! Laws of votes. Each is the contract of a function that does nothing.
ghost use Rattle.bus_vote.specs.VoteLaws.{RunsAreVoted, ListsAreFixedByTwo, VotedAreWritten, TwoFixTheVote};

use bus_schedule::laws::accepted_is_closed;

/// Where two lists are present and equal, the vote is that list, of its length, with no place undecided, whatever the third is: so two
/// channels of a round that are alike fix its vote. Each round in which two channels have words is written.
pub fn two_fix_the_vote()
    ensures votes { TwoFixTheVote }
    ensures rounds { ListsAreFixedByTwo }
    ensures written { VotedAreWritten }
{}

/// Where a list is the closed schedule of even hands of an accepted table, every round below the number of messages is voted, from the
/// words of the messages of that round in the three hands; so two hands that are alike fix every vote.
pub fn runs_are_voted()
    ensures { RunsAreVoted }
{
    accepted_is_closed();
}
