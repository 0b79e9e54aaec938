//! A trace: what was sent up to a horizon.
ghost use Rattle.std.specs.Prelude.{◌≡◌, ◌↔◌, ◌<◌, IsSome, IfSome, length, slice_get};
ghost use Rattle.bus_strings.specs.Transmissions.{end_of, garbled as garbled_in};

use crate::hold::Hold;
use crate::valid::{are_below, are_holds};
use bus_strings::laws::neighbours_tell;
use bus_strings::limits::HORIZON_LIMIT;
use bus_strings::{Transmission, garbled};
use std::marker::Model;

/// What was seen of a bus up to a horizon: how many messages each terminal held, and what was sent.
///
/// The horizon is at most `bus_strings::limits::HORIZON_LIMIT` bit times from the settled start. The holds ascend strictly by
/// terminal, all of 1 to 128. The list ascends strictly by moment, then terminal, and all its moments are below the horizon.
#[derive(Drop)]
pub struct Trace {
    horizon: u64,
    holds: Vec<Hold>,
    list: Vec<Transmission>,
}

impl Model for Trace {
    ghost use Rattle.bus_trace.specs.Traces.{Recording, IsTrace};

    ghost Value = { Recording };

    ghost view = { λ t. record { horizon = t.horizon; holds = t.holds.items; list = t.list.items } };

    ghost invariant = { λ t. IsTrace (record { horizon = t.horizon; holds = t.holds.items; list = t.list.items }) };
}

impl Trace {
    ghost use Rattle.bus_trace.specs.Traces.{IsTrace};

    /// The trace of these three. None where the horizon, the holds or the list isn't as a trace has them.
    pub fn new(horizon: u64, holds: Vec<Hold>, list: Vec<Transmission>) -> Option<Trace>
        ensures some { IsSome result ↔ IsTrace (record { horizon = horizon; holds = holds.items; list = list.items }) }
        ensures value { IfSome result (λ t. t ≡ record { horizon = horizon; holds = holds.items; list = list.items }) }
    {
        if horizon > HORIZON_LIMIT || !are_holds(&holds) || !are_below(&list, horizon) {
            return None;
        }
        Some(Trace {
            horizon,
            holds,
            list,
        })
    }

    /// The trace of these three, where it is known that they are those of a trace: nothing is looked at again.
    pub fn of(horizon: u64, holds: Vec<Hold>, list: Vec<Transmission>) -> Trace
        requires { IsTrace (record { horizon = horizon; holds = holds.items; list = list.items }) }
        ensures { result ≡ record { horizon = horizon; holds = holds.items; list = list.items } }
    {
        Trace {
            horizon,
            holds,
            list,
        }
    }

    /// Up to when the bus was looked at, in bit times from the settled start.
    pub fn horizon(&self) -> u64
        ensures value { result ≡ self.now.horizon }
        ensures ranges { IsTrace self.now }
    {
        self.horizon
    }

    /// How many messages each terminal held, by terminal.
    pub fn holds(&self) -> &[Hold]
        ensures value { result.now ≡ self.now.holds }
        ensures ranges { IsTrace self.now }
    {
        &self.holds
    }

    /// What was sent, by moment and then terminal.
    pub fn list(&self) -> &[Transmission]
        ensures value { result.now ≡ self.now.list }
        ensures ranges { IsTrace self.now }
    {
        &self.list
    }

    /// The moment at which entry `k` of the list, counted from 0, has ended: its own moment and the bit times of its message.
    pub fn end(&self, k: usize) -> u64
        requires { k < length self.now.list }
        ensures { IfSome (slice_get self.now.list k) (λ x. result ≡ end_of x) }
    {
        self.list[k].end()
    }

    /// Whether entry `k` of the list, counted from 0, is garbled: another entry overlaps it. This call looks at each earlier entry;
    /// where each entry of a list is wanted, [`Marks`](bus_strings::Marks) goes over the list once.
    pub fn collided(&self, k: usize) -> bool
        requires { k < length self.now.list }
        ensures { result ≡ garbled_in self.now.list k }
    {
        neighbours_tell();
        garbled(&self.list, k)
    }
}
