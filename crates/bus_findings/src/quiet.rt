//! The last long stretch in which nobody was heard.
ghost use Rattle.std.specs.Prelude.{◌≡◌, ◌+◌, ◌^◌, ◌<◌, ◌≤◌, List, length, slice_get, Some};
ghost use Rattle.bus_strings.specs.Messages.{Entry};
ghost use Rattle.bus_bounds.specs.Bounds.{Bounds};
ghost use Rattle.bus_findings.specs.Recorded.{reach as reach_of};
ghost use Rattle.bus_findings.specs.inside.Calm as calm;
ghost use Rattle.bus_findings.specs.inside.Calm.{HaveEnded, IsQuiet, end_before};

use crate::lengths::reach;
use bus_bounds::Bounds;
use bus_strings::Transmission;

/// The last long stretch in which nobody was heard, so that few starts need a look at all that was sent since their terminal's last one.
#[derive(Clone, Copy, Debug)]
pub struct Quiet {
    /// From how many bit times on a stretch is long.
    pub long: u64,
    /// Where the transmission that ends it stands in the list; 0 where none was seen.
    pub place: usize,
    /// Where the one stands that ends the long stretch before it.
    pub earlier: usize,
    /// Those before `place` have ended at this moment, at the soonest.
    pub from: u64,
    /// No stretch behind it is longer.
    pub since: u64,
}

/// When a terminal's timers are over for certain.
#[derive(Clone, Copy, Debug)]
pub struct Over {
    /// The moment at which the transmit interval is.
    pub interval: u64,
    /// The bit times of the synchronization gap.
    pub sync_gap: u64,
    /// The bit times of the terminal gap.
    pub terminal_gap: u64,
}

impl Quiet {
    /// None was seen.
    pub(crate) fn none(long: u64) -> Quiet
        requires { long ≤ 2 ^ 18 }
        ensures { (bounds : Bounds) (list : List Entry) → IsQuiet bounds list 0 result }
    {
        Quiet {
            long,
            place: 0,
            earlier: 0,
            from: 0,
            since: 0,
        }
    }

    /// With the transmission at place `i`, which begins at a moment; those before it have ended at `soonest` at the soonest, and at
    /// `end` or later at the latest.
    pub(crate) fn with(self, soonest: u64, end: u64, i: usize, moment: u64) -> Quiet
        requires end { end < 2 ^ 42 }
        requires soonest { soonest < 2 ^ 41 }
        requires long { self.long ≤ 2 ^ 18 }
        ensures { (bounds : Bounds) (list : List Entry) → ((x : Entry) → slice_get list i ≡ Some x → x.moment ≡ moment)
            → HaveEnded bounds list i soonest → soonest ≤ end_before bounds list i → end ≤ end_before bounds list i
            → IsQuiet bounds list i self → IsQuiet bounds list (i + 1) result }
    {
        if end + self.long <= moment {
            Quiet {
                long: self.long,
                place: i,
                earlier: self.place,
                from: soonest,
                since: 0,
            }
        } else {
            Quiet {
                since: self.since.max(moment.saturating_sub(end)),
                ..self
            }
        }
    }

    /// Whether it stands behind a place, with room for a gap before a moment.
    pub(crate) fn has_room(
        self,
        bounds: Bounds,
        list: &[Transmission],
        place: usize,
        gap: u64,
        until: u64,
    ) -> bool
        requires within { self.place < length list.now }
        requires gap { gap ≤ 2 ^ 18 }
        requires from { self.from < 2 ^ 41 }
        ensures { (x : Entry) → slice_get list.now self.place ≡ Some x
            → result ≡ calm.has_room (reach_of bounds) self place gap until x.moment }
    {
        let x = &list[self.place];
        place < self.place && self.from + gap <= (x.moment + reach(bounds)).min(until)
    }

    /// Whether it is plain that a terminal wasn't due before a start: its interval wasn't over, or behind its last start, at a place,
    /// this is the only long stretch, with no room for both gaps once the interval was over, and none behind it has room for its
    /// terminal gap. All before the start have ended at `end` or later.
    pub(crate) fn rules_out(
        self,
        list: &[Transmission],
        place: usize,
        over: Over,
        end: u64,
        start: u64,
    ) -> bool
        requires within { self.place < length list.now }
        requires sync { over.sync_gap ≤ 2 ^ 20 }
        requires gap { over.terminal_gap ≤ 2 ^ 20 }
        requires from { self.from < 2 ^ 41 }
        requires end { end < 2 ^ 42 }
        ensures { (x : Entry) → slice_get list.now self.place ≡ Some x → result ≡ calm.rules_out self place over end start x.moment }
    {
        let x = &list[self.place];
        let gap = over.terminal_gap;
        start <= over.interval
            || (self.earlier <= place
                && place < self.place
                && self.long <= over.sync_gap
                && self.since < gap
                && start <= end + gap
                && (x.moment < over.interval || x.moment < self.from + over.sync_gap + gap))
    }
}
