//! Whether a transmission of a list is garbled, by how far those before it reach.
ghost use Rattle.std.specs.Prelude.{◌≡◌, ◌+◌, ◌<◌, nat_lt, false, length, take, slice_get};
ghost use Rattle.std.specs.Option.{option_map_or};
ghost use Rattle.bus_strings.specs.Transmissions.{garbled};
ghost use Rattle.bus_vote.specs.inside.Walks.{IsSent, IsReach};

use bus_strings::Transmission;
use bus_strings::laws::neighbours_tell;

/// Whether the transmission behind a place begins before this one's end.
fn next_begins(list: &[Transmission], at: usize, end: u64) -> bool
    requires { at < length list.now }
    ensures { result ≡ option_map_or (λ y. nat_lt y.moment end) (slice_get list.now (at + 1)) false }
{
    match list.get(at + 1) {
        None => false,
        Some(next) => next.moment < end,
    }
}

/// Whether the transmission at a place is garbled, given the greatest end of those before it. It looks at this one and the next.
pub(crate) fn is_garbled(list: &[Transmission], at: usize, reach: u64) -> bool
    requires sent { IsSent list.now }
    requires within { at < length list.now }
    requires reach { IsReach (take at list.now) reach }
    ensures { result ≡ garbled list.now at }
{
    neighbours_tell();
    let x = &list[at];
    x.moment < reach || next_begins(list, at, x.end())
}
