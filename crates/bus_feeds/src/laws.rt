//! What feeds mean for what terminals receive. Each law is a statement that doesn't speak of the call, which does nothing.
ghost use Rattle.bus_feeds.specs.FeedLaws.{UnfedGivesNothing, UnfedAddsNothing, EachLineIsFed, EachFeedGives, SharesAreMet};

/// A TAKE line that nothing feeds is in no received line: what the terminal receives is the same without it.
pub fn unfed_is_silent()
    ensures alone { UnfedGivesNothing }
    ensures beside { UnfedAddsNothing }
{}

/// Each received line is of a SEND line that feeds it, has all words that always come, and none that never comes.
pub fn each_line_is_fed()
    ensures { EachLineIsFed }
{}

/// Each transmission that a terminal hears gives, for each of its SEND lines and each TAKE line that it feeds, a received line with all
/// words that always come.
pub fn each_feed_gives()
    ensures { EachFeedGives }
{}

/// The words that always and sometimes come are bounds that wordstrings of the SEND line meet.
pub fn shares_are_met()
    ensures { SharesAreMet }
{}
