//! Where the rows of a picture begin.
ghost use Rattle.std.specs.Prelude.{◌≡◌, ◌<◌, ◌≤◌, ◌+◌, ◌^◌};
ghost use Rattle.bus_cycles.specs.Rows as definition;
ghost use Rattle.bus_cycles.specs.inside.Bounds.{IsSent};

use bus_shapes::Sent;
use bus_table::{Mode, Table, greatest_gap};

/// What of a table tells where rows begin.
#[derive(Clone, Copy, Debug, PartialEq, Eq)]
pub(crate) struct Cycle {
    /// Its mode.
    pub mode: Mode,
    /// Its transmit interval.
    pub ti: u32,
    /// Its synchronization gap.
    pub sg: u32,
    /// How long before its first transmission a cycle begins at most, in aperiodic mode.
    pub lead: u64,
    /// How long before the settled start the first row may begin. The moments at which rows begin are counted from there.
    pub origin_offset: u32,
}

/// Where a row is.
#[derive(Clone, Copy, Debug, PartialEq, Eq)]
pub(crate) struct Extent {
    /// Which row it is, from 0.
    pub place: u64,
    /// The moment at which it begins, counted from before the settled start.
    pub begin: u64,
    /// Whether its first transmission is seen to begin a cycle.
    pub fresh: bool,
    /// The terminal of its first transmission.
    pub first: u8,
    /// The terminal of its last one.
    pub last: u8,
    /// The moment at which all its transmissions have ended.
    pub end: u64,
    /// Whether one of them is plain.
    pub plain: bool,
    /// Whether one of them is garbled.
    pub garbled: bool,
}

/// The moment at which the interval began that holds a moment.
fn interval_of(ti: u32, t: u64) -> u64
    requires { 0 < ti }
    ensures value { result ≡ definition.interval_of ti t }
    ensures within { result ≤ t }
{
    let ti = u64::from(ti);
    t / ti * ti
}

/// How long before the settled start the first row may begin.
fn origin_offset_of(mode: Mode, sg: u32) -> u32
    ensures { result ≡ definition.origin_offset_of mode sg }
{
    match mode {
        Mode::Aperiodic => sg,
        Mode::Periodic => 0,
    }
}

impl Cycle {
    /// What of this table tells where rows begin.
    pub fn new(table: &Table) -> Self
        ensures value { result ≡ definition.cycle_of table.now }
        ensures some { 0 < result.ti }
    {
        Cycle {
            mode: table.mode(),
            ti: table.ti(),
            sg: table.sg(),
            lead: u64::from(table.sg()) + u64::from(greatest_gap(table.senders())),
            origin_offset: origin_offset_of(table.mode(), table.sg()),
        }
    }

    /// A moment, counted as those are at which rows begin.
    fn from_origin(&self, t: u64) -> u64
        requires { t ≤ 2 ^ 41 }
        ensures { result ≡ t + self.now.origin_offset }
    {
        t + u64::from(self.origin_offset)
    }

    /// From where on the earlier transmissions have ended.
    fn ended_from(&self, sent: &Sent) -> u64
        requires { IsSent sent.now }
        ensures { result ≡ definition.ended_from self.now sent.now }
    {
        if sent.before == 0 {
            0
        } else {
            self.from_origin(sent.before)
        }
    }

    /// The moment at which a row begins of which this is the first transmission.
    fn begin_of(&self, sent: &Sent) -> u64
        requires some { 0 < self.now.ti }
        requires sent { IsSent sent.now }
        ensures value { result ≡ definition.begin_of self.now sent.now }
        ensures low { result ≤ 2 ^ 42 }
    {
        match self.mode {
            Mode::Periodic => interval_of(self.ti, sent.moment) + u64::from(self.origin_offset),
            Mode::Aperiodic => {
                let moment = self.from_origin(sent.moment);
                moment.min(self.ended_from(sent).max(moment.saturating_sub(self.lead)))
            }
        }
    }

    /// Whether a transmission begins a new row behind one that began at this moment.
    pub fn is_new(&self, begin: u64, sent: &Sent) -> bool
        requires some { 0 < self.now.ti }
        requires sent { IsSent sent.now }
        ensures { result ≡ definition.is_new self.now begin sent.now }
    {
        match self.mode {
            Mode::Periodic => interval_of(self.ti, sent.moment) + u64::from(self.origin_offset)
                != begin,
            Mode::Aperiodic => sent.moment.saturating_sub(sent.before) >= u64::from(self.sg),
        }
    }

    /// Whether a transmission is seen to begin a cycle.
    fn is_fresh(&self, sent: &Sent) -> bool
        ensures { result ≡ definition.is_fresh self.now sent.now }
    {
        sent.before > 0 && sent.moment.saturating_sub(sent.before) >= u64::from(self.sg)
    }

    /// The row that begins with a transmission.
    pub fn row_at(&self, place: u64, sent: &Sent) -> Extent
        requires some { 0 < self.now.ti }
        requires sent { IsSent sent.now }
        ensures value { result ≡ definition.extent_of (definition.row_at self.now place sent.now) }
        ensures low { result.end ≤ 2 ^ 41 }
        ensures begin { result.begin ≤ 2 ^ 42 }
    {
        Extent {
            place,
            begin: self.begin_of(sent),
            fresh: self.is_fresh(sent),
            first: sent.terminal,
            last: sent.terminal,
            end: sent.end,
            plain: !sent.garbled,
            garbled: sent.garbled,
        }
    }

    /// Whether a row takes a moment.
    pub fn takes(&self, row: Extent, t: u64) -> bool
        requires some { 0 < self.now.ti }
        requires low { t ≤ 2 ^ 40 }
        ensures { result ≡ definition.takes self.now row t }
    {
        match self.mode {
            Mode::Periodic => interval_of(self.ti, t) + u64::from(self.origin_offset) == row.begin,
            Mode::Aperiodic => row.begin <= self.from_origin(t),
        }
    }
}

impl Extent {
    /// The row with one transmission more behind the others.
    pub fn with(self, sent: &Sent) -> Extent
        requires sent { IsSent sent.now }
        ensures low { self.end ≤ 2 ^ 41 → result.end ≤ 2 ^ 41 }
        ensures value { (row : definition.Row) → self ≡ definition.extent_of row
            → result ≡ definition.extent_of (definition.with_sent row sent.now) }
        ensures place { result.place ≡ self.place }
        ensures begin { result.begin ≡ self.begin }
    {
        Extent {
            place: self.place,
            begin: self.begin,
            fresh: self.fresh,
            first: self.first,
            last: sent.terminal,
            end: sent.end.max(self.end),
            plain: self.plain || !sent.garbled,
            garbled: self.garbled || sent.garbled,
        }
    }
}
