//! What was seen of all terminals before a transmission.
ghost use Rattle.std.specs.Prelude.{◌≡◌, ℕ, ◌+◌, ◌^◌, ◌<◌, ◌≤◌, [], ◌∷◌, ◌++◌, List, length};
ghost use Rattle.bus_strings.specs.Transmissions.{IsAscending};
ghost use Rattle.bus_recording.specs.Seen.{Seen};
ghost use Rattle.bus_findings.specs.inside.Standing as standing;
ghost use Rattle.bus_findings.specs.inside.Standing.{AreEnds, IsHeard, HasBegun, HasReached};

use crate::lengths::{latest, reach, soonest};
use crate::quiet::Quiet;
use bus_bounds::Bounds;
use bus_strings::Transmission;

/// The greatest ends of transmissions, so that for each terminal the greatest of those of the others is known.
#[derive(Clone, Copy, Debug)]
pub struct Ends {
    /// The greatest of all.
    pub first: u64,
    /// Whose it is.
    pub terminal: u8,
    /// The greatest of all others.
    pub second: u64,
}

impl Ends {
    /// No transmission was seen.
    fn none() -> Ends
        ensures { AreEnds [] result }
    {
        Ends {
            first: 0,
            terminal: 0,
            second: 0,
        }
    }

    /// The greatest end of a transmission that isn't of this terminal, or 0.
    pub(crate) fn of_others(self, terminal: u8) -> u64
        ensures { result ≡ standing.of_others self terminal }
    {
        if terminal == self.terminal {
            self.second
        } else {
            self.first
        }
    }

    /// With one more end, of this terminal.
    fn with(self, terminal: u8, end: u64) -> Ends
        requires { end < 2 ^ 41 }
        ensures { (recording : List Seen) (r : Seen) → AreEnds recording self → r.sender ≡ terminal → r.soonest ≡ end
            → AreEnds (recording ++ r ∷ []) result }
    {
        if terminal == self.terminal {
            Ends {
                first: self.first.max(end),
                ..self
            }
        } else if self.first < end {
            Ends {
                first: end,
                terminal,
                second: self.first,
            }
        } else {
            Ends {
                second: self.second.max(end),
                ..self
            }
        }
    }
}

/// What was seen of all terminals before a transmission.
#[derive(Clone, Copy, Debug)]
pub struct Heard {
    /// The greatest moment at which one of them ends, by its bits.
    pub end: u64,
    /// The greatest moments at which they end at the soonest.
    pub soonest: Ends,
    /// The greatest moment at which a terminal may hear one of them end.
    pub latest: u64,
    /// How many of them every terminal has heard begin for certain.
    pub begun: usize,
    /// The greatest moment at which one of these ends at the soonest, or 0.
    pub begun_end: u64,
    /// The last long stretch in which nobody was heard.
    pub quiet: Quiet,
}

impl Heard {
    /// Nothing was seen. A stretch is long from so many bit times on.
    pub(crate) fn nothing(bounds: Bounds, long: u64, list: &[Transmission]) -> Heard
        requires { long ≤ 2 ^ 18 }
        ensures heard { IsHeard bounds list.now 0 result }
        ensures begun { (moment : ℕ) → HasBegun bounds list.now moment result }
    {
        Heard {
            end: 0,
            soonest: Ends::none(),
            latest: 0,
            begun: 0,
            begun_end: 0,
            quiet: Quiet::none(long),
        }
    }

    /// At a moment, all that began more than the reach before it are heard to begin.
    pub(crate) fn at_moment(self, bounds: Bounds, list: &[Transmission], moment: u64) -> Heard
        requires order { IsAscending list.now }
        requires begun { HasBegun bounds list.now moment self }
        ensures reached { HasReached bounds list.now moment result }
        ensures heard { (i : ℕ) → IsHeard bounds list.now i self → IsHeard bounds list.now i result }
    {
        let reach = reach(bounds);
        let mut begun = self.begun;
        let mut end = self.begun_end;
        while begun < list.len() {
            let x = &list[begun];
            if x.moment + reach >= moment {
                break;
            }
            end = end.max(soonest(bounds, x));
            begun += 1;
        }
        Heard {
            begun,
            begun_end: end,
            ..self
        }
    }

    /// With one more transmission, the one at place `i`.
    pub(crate) fn with(self, bounds: Bounds, list: &[Transmission], i: usize) -> Heard
        requires within { i < length list.now }
        requires heard { IsHeard bounds list.now i self }
        ensures heard { IsHeard bounds list.now (i + 1) result }
        ensures begun { (moment : ℕ) → HasBegun bounds list.now moment self → HasBegun bounds list.now moment result }
    {
        let x = &list[i];
        let reach = reach(bounds);
        let end = self.latest.saturating_sub(reach);
        Heard {
            end: self.end.max(x.end()),
            soonest: self.soonest.with(x.terminal, soonest(bounds, x)),
            latest: self.latest.max(latest(bounds, x) + reach),
            quiet: self.quiet.with(self.soonest.first, end, i, x.moment),
            ..self
        }
    }
}
