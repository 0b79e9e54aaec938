//! The transmissions of a trace that begin in a window.
ghost use Rattle.std.specs.Prelude.{◌≡◌, ◌<◌, ◌^◌, length};
ghost use Rattle.std.specs.List.{AllByRecursion};
ghost use Rattle.std.specs.Iterator.{YieldsFirst, item_count};
ghost use Rattle.bus_cycles.specs.Sents as definition;
ghost use Rattle.bus_cycles.specs.inside.Bounds.{IsSent};

use bus_shapes::{Sent, Sents};
use bus_strings::laws::neighbours_tell;
use bus_trace::{Trace, Window};
use std::marker::Model;

/// What is told of each transmission of a trace that begins in a window, in order.
#[derive(Drop)]
pub(crate) struct Shown<'a> {
    window: &'a Window,
    sents: Sents<'a>,
}

impl<'a> Model for Shown<'a> {
    ghost use Rattle.std.specs.Prelude.{List, filter};
    ghost use Rattle.bus_shapes.specs.declared.sent.Sent as sayings;
    ghost use Rattle.bus_cycles.specs.Sents.{is_shown};

    ghost Value = { List sayings.Sent };

    ghost view = { λ s. filter (is_shown s.window.now) s.sents };
}

impl<'a> Shown<'a> {
    /// Those of a trace and a window.
    pub fn new(window: &'a Window, trace: &'a Trace) -> Self
        ensures value { result ≡ definition.shown window.now trace.now.list }
        ensures each { AllByRecursion IsSent result }
        ensures few { length result < 2 ^ 64 }
    {
        neighbours_tell();
        let list = trace.list();
        let _count = list.len();
        Shown {
            window,
            sents: Sents::new(list),
        }
    }
}

impl<'a> Iterator for Shown<'a> {
    type Item = Sent;

    ghost next_gives = { YieldsFirst (λ s. s) };

    ghost remaining = { item_count (λ s. s) };

    fn next(&mut self) -> Option<Sent> {
        while let Some(sent) = self.sents.next() {
            if self.window.holds(sent.moment) {
                return Some(sent);
            }
        }
        None
    }
}
