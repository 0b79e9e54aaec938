//! A walk over a list, with the timers of the senders.
ghost use Rattle.std.specs.Prelude.{◌≡◌, ◌≤◌, ◌<◌, ◌^◌, ◌+◌, ◌==◌, false, List, map};
ghost use Rattle.bus_table.specs.Tables as tables;
ghost use Rattle.bus_dump.specs.Scenes as definition;
ghost use Rattle.bus_dump.specs.Scenes.{timed};
ghost use Rattle.std.specs.List.{AllByRecursion, list_any};
ghost use Rattle.bus_dump.specs.Seen.{seen_at};
ghost use Rattle.bus_dump.specs.inside.Walks.{BeginsFrom, IsWalkable, Stands, SteadyTo};
ghost use Rattle.bus_dump.specs.inside.SenderTimers.{tells_at};
ghost use Rattle.bus_dump.specs.inside.TimerWalks.{BreachStays, IsLasting, IsReady, IsTimerWalk, IsTold, Keeping, Lasts, TellsAs};
ghost use Rattle.bus_dump.specs.inside.TimerWalks.{timer_turn};
ghost use Rattle.bus_dump.specs.declared.live.Live as lives;
ghost use Rattle.bus_strings.specs.Transmissions as bus;

use crate::all_timers::{next_turn, pass_all, settle, tell_all};
use crate::breach::{is_breach, next_breach};
use crate::dump::Dump;
use crate::live::Live;
use crate::look::look;
use crate::scene::{Scene, has_carrier};
use crate::sender_timers::{Elapsed, SenderTimers};
use crate::shown::Seen;
use crate::walk::Walk;
use arrayvec::ArrayVec;
use bus_medium::quiet;
use bus_strings::Transmission;
use bus_strings::limits::TERMINALS;
use bus_table::{MOST_SENDERS, Table};
use bus_timers::laws::test_decides;

/// A walk over a list, the timers of the senders of which the dump has them, and the moment of the breach.
///
/// The timers lie behind the walk: they aren't asked as long as carrier stays, nobody begins and none of them turns.
#[derive(Drop)]
pub(crate) struct TimerWalk<'a> {
    /// The walk.
    pub walk: Walk<'a>,
    /// How long the bus was quiet before the settled start.
    pub quiet: u64,
    /// The timers, in the order of the table, at the bit time at which they were asked last.
    pub all_timers: ArrayVec<SenderTimers, MOST_SENDERS>,
    /// The moment of the breach, where there is one.
    pub breach: Option<u64>,
    /// The bit time at which the timers were asked last.
    pub since: u64,
    /// The transmissions that were live there.
    pub starting: ArrayVec<Live, TERMINALS>,
    /// Whether there was carrier there.
    pub carrier: bool,
    /// The bit time up to which the timers tell the same as there, as long as carrier stays and nobody begins.
    pub still: u64,
}

impl<'a> TimerWalk<'a> {
    /// A walk with timers at bit time 0.
    pub fn new(dump: Dump, breach: Option<u64>, table: &Table, list: &'a [Transmission]) -> Self
        requires { IsWalkable list.now }
        ensures list { result.walk.list.now ≡ list.now }
        ensures breach { result.breach ≡ breach }
        ensures timer_walk { IsTimerWalk 0 result }
        ensures since { result.since ≡ 0 }
        ensures still { result.still ≡ 0 }
        ensures keeping { Keeping table.now (timed dump table.now) result }
    {
        let mut walk = Walk::new(list);
        walk.begin_all(0);
        TimerWalk {
            walk,
            quiet: u64::from(quiet(table)),
            all_timers: settle(dump, table),
            breach,
            since: 0,
            starting: ArrayVec::new(),
            carrier: false,
            still: 0,
        }
    }

    /// Passes the timers on to bit time t.
    fn pass(&mut self, t: u64)
        requires timer_walk { IsTimerWalk t self.old }
        requires later { self.old.since < t }
        requires low { t < 2 ^ 40 }
        requires lasts { Lasts t self.old }
        ensures walk { self.new.walk ≡ self.old.walk }
        ensures breach { self.new.breach ≡ self.old.breach }
        ensures timer_walk { IsTimerWalk t self.new }
        ensures since { self.new.since ≡ t }
        ensures keeping { (table : tables.Table) (senders : List tables.Sender) → Keeping table senders self.old
            → Keeping table senders self.new }
    {
        let starting = self.starting.as_slice();
        let (from, to) = (self.quiet + self.since, self.quiet + t);
        let (since, carrier) = (self.since, self.carrier);
        pass_all(
            self.all_timers.as_mut_slice(),
            starting,
            since,
            from,
            to,
            carrier,
        );
        self.since = t;
    }

    /// Passes the timers on to bit time t, unless they are there.
    fn bring(&mut self, t: u64)
        requires timer_walk { IsTimerWalk t self.old }
        requires low { t < 2 ^ 40 }
        requires ready { IsReady t self.old }
        ensures walk { self.new.walk ≡ self.old.walk }
        ensures breach { self.new.breach ≡ self.old.breach }
        ensures timer_walk { IsTimerWalk t self.new }
        ensures since { self.new.since ≡ t }
        ensures keeping { (table : tables.Table) (senders : List tables.Sender) → Keeping table senders self.old
            → Keeping table senders self.new }
    {
        if self.since < t {
            self.pass(t);
        }
    }

    /// Asks the timers, which stand at bit time t, where there is carrier or not.
    fn ask(
        &mut self,
        t: u64,
        limit: u64,
        carrier: bool,
        timers: &mut ArrayVec<Elapsed, MOST_SENDERS>,
    )
        requires timer_walk { IsTimerWalk t self.old }
        requires since { self.old.since ≡ t }
        requires later { t < limit }
        requires low { limit ≤ 2 ^ 40 }
        ensures walk { self.new.walk ≡ self.old.walk }
        ensures breach { self.new.breach ≡ self.old.breach }
        ensures quiet { self.new.quiet ≡ self.old.quiet }
        ensures since { self.new.since ≡ t }
        ensures all_timers { self.new.all_timers ≡ self.old.all_timers }
        ensures starting { self.new.starting.items ≡ self.old.walk.live.items }
        ensures carrier { self.new.carrier ≡ carrier }
        ensures later { t < self.new.still }
        ensures turns { AllByRecursion (λ sender_timers. self.old.quiet + self.new.still
            ≤ timer_turn t self.old.walk.live.items (self.old.quiet + t) (self.old.quiet + limit) carrier sender_timers)
            self.old.all_timers.items }
        ensures told { timers.new.items ≡ map (tells_at (self.old.quiet + t)) self.old.all_timers.items }
    {
        let place = self.quiet + t;
        let all_timers = self.all_timers.as_slice();
        tell_all(all_timers, place, timers);
        let live = self.walk.live.as_slice();
        let turn = next_turn(all_timers, live, t, place, self.quiet + limit, carrier);
        self.still = turn - self.quiet;
        copy_live(&mut self.starting, &self.walk.live);
        self.carrier = carrier;
    }

    /// Whether the timers have to be asked at bit time t, where there is carrier or not.
    fn is_due(&self, t: u64, carrier: bool) -> bool
        ensures { result ≡ false → IsLasting t carrier self.now }
    {
        if self.still <= t || carrier != self.carrier {
            return true;
        }
        any_begins(self.walk.live.as_slice(), t)
    }

    /// Asks the timers at bit time t, where there is carrier or not, if they have to be asked, and tells whether they were.
    fn attend(
        &mut self,
        t: u64,
        limit: u64,
        carrier: bool,
        timers: &mut ArrayVec<Elapsed, MOST_SENDERS>,
    ) -> bool
        requires timer_walk { IsTimerWalk t self.old }
        requires ready { IsReady t self.old }
        requires later { t < limit }
        requires low { limit ≤ 2 ^ 40 }
        requires carrier { bus.carrier self.old.walk.list.now t ≡ carrier }
        ensures walk { self.new.walk ≡ self.old.walk }
        ensures breach { self.new.breach ≡ self.old.breach }
        ensures timer_walk { IsTimerWalk t self.new }
        ensures since { self.new.since ≤ t }
        ensures lasts { Lasts (t + 1) self.new }
        ensures told { (table : tables.Table) (senders : List tables.Sender) → Keeping table senders self.old
            → (self.old.since < t → IsTold table senders self.old timers.old.items)
            → Keeping table senders self.new × IsTold table senders self.new timers.new.items }
        ensures same { result ≡ false → timers.new.items ≡ timers.old.items }
    {
        test_decides();
        let due = self.is_due(t, carrier);
        if due {
            self.bring(t);
            self.ask(t, limit, carrier, timers);
        }
        due
    }

    /// Looks around at bit time t, and tells the next one at which something may change, or the limit. What the timers tell is left as it
    /// is where it stays.
    pub fn look(&mut self, t: u64, limit: u64, now: &mut Scene) -> u64
        requires timer_walk { IsTimerWalk t self.old }
        requires ready { IsReady t self.old }
        requires later { t < limit }
        requires low { limit ≤ 2 ^ 40 }
        ensures list { self.new.walk.list.now ≡ self.old.walk.list.now }
        ensures breach { self.new.breach ≡ self.old.breach }
        ensures timer_walk { IsTimerWalk t self.new }
        ensures seen { now.new.seen.items ≡ seen_at self.old.walk.list.now t }
        ensures broken { now.new.breach ≡ definition.is_breach self.old.breach t }
        ensures since { self.new.since ≤ t }
        ensures lasts { Lasts result self.new }
        ensures told { (table : tables.Table) (senders : List tables.Sender) → Keeping table senders self.old
            → (self.old.since < t → IsTold table senders self.old now.old.timers.items)
            → Keeping table senders self.new × IsTold table senders self.new now.new.timers.items }
        ensures later { t < result }
        ensures most { result ≤ limit }
        ensures ahead { BeginsFrom self.new.walk.list.now self.new.walk.begun result }
        ensures steady { SteadyTo self.old.walk.list.now t result }
        ensures same { BreachStays self.old.breach t result }
        ensures tells { TellsAs now.old now.new }
    {
        now.breach = is_breach(self.breach, t);
        let limit = next_breach(self.breach, t, limit);
        let next = look_around(&self.walk, t, limit, &mut now.seen);
        let carrier = has_carrier(now.seen.as_slice());
        now.told = self.attend(t, limit, carrier, &mut now.timers);
        next.min(self.still)
    }

    /// Goes on to a later bit time, up to which no transmission begins.
    pub fn go_on(&mut self, t: u64, until: u64)
        requires timer_walk { IsTimerWalk t self.old }
        requires later { t < until }
        requires next { BeginsFrom self.old.walk.list.now self.old.walk.begun until }
        requires since { self.old.since ≤ t }
        requires lasts { Lasts until self.old }
        ensures list { self.new.walk.list.now ≡ self.old.walk.list.now }
        ensures breach { self.new.breach ≡ self.old.breach }
        ensures timer_walk { IsTimerWalk until self.new }
        ensures since { self.new.since ≡ self.old.since }
        ensures ready { IsReady until self.new }
        ensures keeping { (table : tables.Table) (senders : List tables.Sender) → Keeping table senders self.old
            → Keeping table senders self.new }
    {
        self.walk.go_on(t, until);
    }
}

/// Takes over what is live.
fn copy_live(to: &mut ArrayVec<Live, TERMINALS>, from: &ArrayVec<Live, TERMINALS>)
    ensures { to.new.items ≡ from.now.items }
{
    to.clear();
    let fits = to.try_extend_from_slice(from.as_slice()).is_ok();
    prove!(fits);
}

/// Whether one of these live transmissions starts at bit time t.
fn any_begins(live: &[Live], t: u64) -> bool
    ensures { result ≡ list_any (λ (one : lives.Live). one.moment == t) live.now }
{
    live.iter().any(|one| one.moment == t)
}

/// Looks around where a walk stands, and tells the next bit time at which something may change, or the limit.
fn look_around(walk: &Walk, t: u64, limit: u64, now: &mut ArrayVec<Seen, TERMINALS>) -> u64
    requires walkable { IsWalkable walk.now.list.now }
    requires stands { Stands walk.now.list.now t walk.now }
    requires later { t < limit }
    requires low { limit ≤ 2 ^ 40 }
    ensures seen { now.new.items ≡ seen_at walk.now.list.now t }
    ensures later { t < result }
    ensures most { result ≤ limit }
    ensures ahead { BeginsFrom walk.now.list.now walk.now.begun result }
    ensures steady { SteadyTo walk.now.list.now t result }
{
    let next = walk.next_begin(t, limit);
    look(walk.list, walk.live.as_slice(), t, next, now)
}
