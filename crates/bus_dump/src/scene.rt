//! What is there at a bit time.
ghost use Rattle.std.specs.Prelude.{◌≡◌, []};
ghost use Rattle.std.specs.List.{list_any};
ghost use Rattle.bus_dump.specs.Signals as signals;
ghost use Rattle.bus_dump.specs.inside.TimerWalks.{TellsAs, scene_of};

use crate::sender_timers::Elapsed;
use crate::shown::Seen;
use arrayvec::ArrayVec;
use bus_strings::limits::TERMINALS;
use bus_table::MOST_SENDERS;

/// What is seen of the transmissions of a list at a bit time, what the timers of the senders tell, where the dump has them, and whether
/// a breach is there.
#[derive(Drop)]
pub(crate) struct Scene {
    /// What is seen of each transmission whose span holds the bit time, in list order.
    pub seen: ArrayVec<Seen, TERMINALS>,
    /// What the timers of each sender tell, in the order of the table.
    pub timers: ArrayVec<Elapsed, MOST_SENDERS>,
    /// Whether the first breach of the trace is there.
    pub breach: bool,
    /// Whether the timers have been asked for this scene; else they tell what they told in the one before.
    pub told: bool,
}

impl Scene {
    /// Room for a scene, in which nothing is yet.
    pub fn new() -> Self
        ensures seen { result.seen.items ≡ [] }
        ensures timers { result.timers.items ≡ [] }
    {
        Scene {
            seen: ArrayVec::new(),
            timers: ArrayVec::new(),
            breach: false,
            told: true,
        }
    }

    /// Takes over what is there in another scene. Only that is copied: the room of both is much larger. The timers aren't where they
    /// weren't asked for the other scene, since then they are there already.
    pub fn take_over(&mut self, other: &Scene)
        requires { TellsAs self.old other.now }
        ensures { scene_of self.new ≡ scene_of other.now }
    {
        copy_seen(&mut self.seen, &other.seen);
        if other.told {
            copy_timers(&mut self.timers, &other.timers);
        }
        self.breach = other.breach;
    }
}

/// Takes over what is seen.
fn copy_seen(to: &mut ArrayVec<Seen, TERMINALS>, from: &ArrayVec<Seen, TERMINALS>)
    ensures { to.new.items ≡ from.now.items }
{
    to.clear();
    let fits = to.try_extend_from_slice(from.as_slice()).is_ok();
    prove!(fits);
}

/// Takes over what the timers tell.
fn copy_timers(to: &mut ArrayVec<Elapsed, MOST_SENDERS>, from: &ArrayVec<Elapsed, MOST_SENDERS>)
    ensures { to.new.items ≡ from.now.items }
{
    to.clear();
    let fits = to.try_extend_from_slice(from.as_slice()).is_ok();
    prove!(fits);
}

/// Whether some transmission has a pulse.
pub(crate) fn has_carrier(seen: &[Seen]) -> bool
    ensures { result ≡ list_any signals.is_on seen.now }
{
    seen.iter().any(|one| one.shown.is_some())
}
