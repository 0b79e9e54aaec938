//! Which rule is to blame.
ghost use Rattle.std.specs.Prelude.{◌≡◌, ◌≤◌, ◌-◌, ◌^◌, suc, length};
ghost use Rattle.std.specs.List.{All};
ghost use Rattle.bus_gaps.specs.Gaps.{least_sg, most_sg};
ghost use Rattle.bus_best.specs.Blames as blames;
ghost use Rattle.bus_best.specs.Blames.{Means};

use crate::chain::asked;
use crate::times::least_whole;
use bus_bounds::Bounds;
use bus_gaps::Speaker;

/// A rule that asks for a terminal gap.
#[derive(Clone, Copy, Debug, PartialEq, Eq)]
pub enum Rule {
    /// All others are in sync before the first sender starts.
    Joining,
    /// Within no message the gap is over.
    Drop,
    /// Who is before is heard, also where both wait for the synchronization gap.
    Opening,
}

/// What is needed at least of a terminal gap that may have 256 bit times.
#[derive(Clone, Copy, Debug)]
pub struct Needed {
    /// The rule that asks for it.
    pub rule: Rule,
    /// The place of its sender in turn order, from 0.
    pub place: usize,
    /// How many bit times.
    pub bits: u64,
}

/// The first rule that can't be kept together with those before it.
#[derive(Clone, Copy, Debug)]
pub enum Blame {
    /// The shortest message of the sender at this place has `have` nanoseconds, and would need `needed`: it may be off by all of them.
    Lasts {
        place: usize,
        needed: u64,
        have: u64,
    },
    /// Within no message a synchronization gap may be over: it would need so many bit times, and may have 1024.
    Whole {
        needed: u64,
    },
    /// A terminal gap would have to be too great.
    Gap(Needed),
    /// Where gaps are to be over before another's synchronization gap, one of them would have to be too great; or the synchronization gap,
    /// where none is told.
    Waiting(Option<Needed>),
    /// Only the interval is outlasted in no way.
    Interval,
}

/// The least synchronization gap that is too great.
const TOO_GREAT_SG: u64 = 1025;

/// How many nanoseconds a bit time has.
const BIT_TIME: u64 = 500;

/// The first of these senders whose shortest message may be over as soon as it begins.
fn first_unlasting(bounds: Bounds, senders: &[Speaker]) -> Option<Blame>
    requires { All (λ a. a.shortest ≤ 2 ^ 18) senders.now }
    ensures { result ≡ blames.first_unlasting bounds 0 senders.now }
{
    for place in 0..senders.len() {
        let have = BIT_TIME * u64::from(senders[place].shortest);
        if bounds.short(have) == 0 {
            let needed = bounds.error(have) + 1;
            return Some(Blame::Lasts {
                place,
                needed,
                have,
            });
        }
    }
    None
}

/// What is to blame from this synchronization gap on, where those before it leave gaps that are apart and don't wait.
fn blame_from(bounds: Bounds, count: usize, whole: u32) -> Blame
    requires least { least_sg ≤ whole }
    requires most { whole ≤ most_sg }
    requires few { count ≤ 128 }
    ensures { result ≡ blames.blame_from bounds count whole (suc most_sg - whole) }
{
    for sg in whole..TOO_GREAT_SG as u32 {
        let (above, waiting) = asked(bounds, count, sg);
        if let Some(needed) = above {
            return Blame::Waiting(Some(needed));
        }
        if waiting {
            return Blame::Interval;
        }
    }
    Blame::Waiting(None)
}

/// What is to blame of the rules of gaps.
fn blame_gaps(bounds: Bounds, count: usize) -> Blame
    requires few { count ≤ 128 }
    ensures { result ≡ blames.blame_gaps bounds count }
{
    let needed = least_whole(bounds);
    if needed >= TOO_GREAT_SG {
        return Blame::Whole { needed };
    }
    let whole = needed as u32;
    match asked(bounds, count, whole).0 {
        Some(needed) => Blame::Gap(needed),
        None => blame_from(bounds, count, whole),
    }
}

/// The first rule that can't be kept together with those before it, where these senders have no gaps with which order comes from any start:
/// in the order of [`Blame`]. It takes no memory.
pub fn to_blame(bounds: Bounds, senders: &[Speaker]) -> Blame
    requires few { length senders.now ≤ 128 }
    requires shortest { All (λ a. a.shortest ≤ 2 ^ 18) senders.now }
    ensures value { result ≡ blames.blame_of bounds senders.now }
    ensures meaning { Means bounds senders.now result }
{
    let _ranges = bounds.delay();
    match first_unlasting(bounds, senders) {
        Some(blame) => blame,
        None => blame_gaps(bounds, senders.len()),
    }
}
