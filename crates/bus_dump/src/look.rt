//! What is seen at a bit time.
ghost use Rattle.std.specs.Prelude.{◌≡◌, ◌≤◌, ◌<◌, ◌^◌, length, slice_get, Some};
ghost use Rattle.std.specs.List.{AllByRecursion, filter_map};
ghost use Rattle.bus_strings.specs.Transmissions.{end_of};
ghost use Rattle.bus_dump.specs.inside.Walks.{IsLive, IsSteady, StaysTo, see, sight_of};

use crate::live::Live;
use crate::shown::Seen;
use crate::shown_stretch::stretch_at;
use arrayvec::ArrayVec;
use bus_strings::Transmission;
use bus_strings::limits::TERMINALS;

/// What is seen of a live transmission, and up to which later bit time.
#[derive(Clone, Copy, Debug)]
struct Sight {
    seen: Seen,
    until: u64,
}

/// A transmission of a list.
fn entry(list: &[Transmission], at: usize) -> &Transmission
    requires { at < length list.now }
    ensures { slice_get list.now at ≡ Some result.now }
{
    &list[at]
}

/// Looks at a live transmission at bit time t.
fn see_one(x: &Transmission, one: &Live, t: u64) -> Sight
    requires begun { x.now.moment ≤ t }
    requires held { t < end_of x.now }
    requires low { t ≤ 2 ^ 40 }
    ensures seen { result.seen ≡ sight_of t x.now one.now }
    ensures later { t < result.until }
    ensures steady { StaysTo x.now t result.until }
{
    let stretch = stretch_at(&x.message, t - x.moment);
    let seen = Seen {
        terminal: x.terminal,
        number: one.number,
        garbled: one.garbled,
        shown: stretch.shown,
    };
    Sight {
        seen,
        until: t + stretch.left,
    }
}

/// Looks at the live transmissions at bit time t, and tells the next bit time at which something of them changes, or the limit where
/// that comes first.
pub(crate) fn look(
    list: &[Transmission],
    live: &[Live],
    t: u64,
    limit: u64,
    seen: &mut ArrayVec<Seen, TERMINALS>,
) -> u64
    requires live { AllByRecursion (IsLive list.now t) live.now }
    requires few { length live.now ≤ TERMINALS }
    requires later { t < limit }
    requires low { limit ≤ 2 ^ 40 }
    ensures seen { seen.new.items ≡ filter_map (see list.now t) live.now }
    ensures later { t < result }
    ensures most { result ≤ limit }
    ensures steady { AllByRecursion (IsSteady list.now t result) live.now }
{
    seen.clear();
    let mut until = limit;
    for one in live {
        let x = entry(list, one.at);
        let sight = see_one(x, one, t);
        seen.push(sight.seen);
        until = until.min(sight.until);
    }
    until
}
