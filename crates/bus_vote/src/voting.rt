//! The vote of three lists of words.
ghost use Rattle.std.specs.Prelude.{◌≡◌, ◌<◌, IsTrue};
ghost use Rattle.std.specs.Option.{option_copied};
ghost use Rattle.bus_vote.specs.Votes.{HasPlaces, IsFixedVote, IsFixedWidth, IsVoteOfTwo, two_are_present};
ghost use Rattle.bus_vote.specs.Votes as votes;

/// The number of words of a list; an absent one has none.
fn word_count(words: Option<&[u16]>) -> usize
    ensures { result ≡ votes.word_count (option_copied words.entry) }
{
    words.map_or(0, |list| list.len())
}

/// The word of a list at a place.
fn word_at(words: Option<&[u16]>, place: usize) -> Option<u16>
    ensures { result ≡ votes.word_at (option_copied words.entry) place }
{
    words?.get(place).copied()
}

/// The word of both, where they have the same.
fn agreed(a: Option<u16>, b: Option<u16>) -> Option<u16>
    ensures { result ≡ votes.agreed a b }
{
    if a == b { a } else { None }
}

/// The word that at least two of three have, and None where no two are equal.
fn majority(a: Option<u16>, b: Option<u16>, c: Option<u16>) -> Option<u16>
    ensures { result ≡ votes.majority a b c }
{
    agreed(a, b).or(agreed(a, c)).or(agreed(b, c))
}

/// Whether at least two of three lists are present.
pub(crate) fn are_present(a: Option<&[u16]>, b: Option<&[u16]>, c: Option<&[u16]>) -> bool
    ensures { result ≡ two_are_present (option_copied a.entry) (option_copied b.entry) (option_copied c.entry) }
{
    (a.is_some() && b.is_some()) || (a.is_some() && c.is_some()) || (b.is_some() && c.is_some())
}

/// How many places the vote of three lists has: those at which at least two of the present ones have a word.
///
/// Where two of them are present and equal, it is as long as these, whatever the third is.
pub fn width(a: Option<&[u16]>, b: Option<&[u16]>, c: Option<&[u16]>) -> usize
    ensures value { result ≡ votes.width (option_copied a.entry) (option_copied b.entry) (option_copied c.entry) }

    // The places are those at which two have a word, and no others.
    ensures places { HasPlaces result (option_copied a.entry) (option_copied b.entry) (option_copied c.entry) }

    ensures fixed { IsFixedWidth result (option_copied a.entry) (option_copied b.entry) (option_copied c.entry) }
{
    let (a, b, c) = (word_count(a), word_count(b), word_count(c));
    a.min(b).max(a.min(c)).max(b.min(c))
}

/// The vote of three lists at a place: the word that at least two of them have there, and None where no two are equal.
///
/// Where two of them are present and equal, it is their word, whatever the third is.
pub fn vote(a: Option<&[u16]>, b: Option<&[u16]>, c: Option<&[u16]>, place: usize) -> Option<u16>
    requires present { IsTrue (two_are_present (option_copied a) (option_copied b) (option_copied c)) }
    requires within { place < votes.width (option_copied a) (option_copied b) (option_copied c) }
    ensures value { result ≡ votes.vote_at (option_copied a.entry) (option_copied b.entry) (option_copied c.entry) place }

    // A word exactly where two have it there.
    ensures two { IsVoteOfTwo place result (option_copied a.entry) (option_copied b.entry) (option_copied c.entry) }

    ensures fixed { IsFixedVote place result (option_copied a.entry) (option_copied b.entry) (option_copied c.entry) }
{
    let (a, b, c) = (word_at(a, place), word_at(b, place), word_at(c, place));
    majority(a, b, c)
}
