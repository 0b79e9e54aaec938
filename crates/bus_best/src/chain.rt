//! What the rules ask for with one synchronization gap.
ghost use Rattle.std.specs.Prelude.{◌≡◌, ◌≤◌, ◌==◌, IsNone};
ghost use Rattle.bus_gaps.specs.Gaps.{most_sg, most_tg};
ghost use Rattle.bus_best.specs.Asked as asked;
ghost use Rattle.bus_best.specs.Blames as blames;

use crate::blame::{Needed, Rule};
use crate::times::least_gap;
use bus_bounds::Bounds;
use bus_gaps::{drop_of, first_low, most_time, next_low, sway, waits};

/// The greatest terminal gap.
const MOST_TG: u64 = 256;

/// What asks for the gap behind one of `x` bit times.
fn rule_behind(bounds: Bounds, sg: u32, x: u32) -> Rule
    requires sg { sg ≤ most_sg }
    requires x { x ≤ most_tg }
    ensures { result ≡ blames.rule_behind bounds sg x }
{
    let opening = most_time(bounds, x) + sway(bounds, sg) + 2 * bounds.delay() + 1;
    if opening <= drop_of(bounds) {
        Rule::Drop
    } else {
        Rule::Opening
    }
}

/// The first of the least gaps of so many senders that is greater than a gap may be; and where there is none, whether all of them are over
/// before another's synchronization gap.
pub(crate) fn asked(bounds: Bounds, count: usize, sg: u32) -> (Option<Needed>, bool)
    requires sg { sg ≤ most_sg }
    ensures above { result.0 ≡ blames.above bounds count sg }
    ensures waits { IsNone result.0 → result.1 ≡ blames.all_wait bounds sg (count == 1) (asked.asked bounds count sg) }
{
    let _ranges = bounds.delay();
    let alone = count == 1;
    let mut low = first_low(bounds, sg, alone);
    let mut rule = Rule::Joining;
    let mut waiting = true;
    for place in 0..count {
        let bits = least_gap(bounds, low);
        if bits > MOST_TG {
            return (Some(Needed { rule, place, bits }), false);
        }
        let x = bits as u32;
        waiting = waiting && waits(bounds, sg, alone, x);
        rule = rule_behind(bounds, sg, x);
        low = next_low(bounds, sg, x);
    }
    (None, waiting)
}
