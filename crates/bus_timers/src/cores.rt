//! What the timers of a terminal are, however they are kept.
ghost use Rattle.std.specs.Prelude.{◌≡◌, ℕ, ◌+◌, ◌^◌, ◌≤◌, ◌∷◌, [], Bool, false, List, replicate, Option};
ghost use Rattle.bus_timers.specs.declared.timing.Timing.{Timing};
ghost use Rattle.bus_timers.specs.Timings.{IsSound};
ghost use Rattle.bus_timers.specs.Told.{CountsOne, HasHeard, HasStarted, TellsReady};

use crate::timing::Timing;

/// The timers of one terminal, however they are kept.
///
/// A core is settled once, told each own start, and passed each bit time; between two calls it answers whether
/// the terminal may start (`MayStart`). No call takes memory.
pub trait Core: Drop {
    /// It stands for this timing after this past, the last own start being at this place of it.
    ghost stands: { Self → Timing → List Bool → Option ℕ → Type 0 };

    /// How many bit times it can still be passed.
    ghost room: { Self → ℕ };

    /// How often it was moved since it was settled: each `pass` is one move.
    ghost moves: { Self → ℕ };

    /// The timers at the settled start: the bus was quiet for `timing.quiet` bit times, and nothing was sent yet.
    fn settled(timing: Timing) -> Self
        requires { IsSound timing }
        ensures stands { stands result timing (replicate timing.quiet false) None }
        ensures room { 2 ^ 62 ≤ room result }
        ensures moves { moves result ≡ 0 };

    /// Whether the terminal may start now, after every past for which the core stands.
    fn ready(&self) -> bool
        ensures { TellsReady (stands self.now) result };

    /// The terminal starts now: the last own start is at the end of the past.
    fn started(&mut self)
        ensures stands { HasStarted (stands self.old) (stands self.new) }
        ensures room { room self.new ≡ room self.old }
        ensures moves { moves self.new ≡ moves self.old };

    /// A bit time has passed, with carrier or without. A terminal's own pulses are carrier too.
    fn pass(&mut self, carrier: bool)
        requires { 1 ≤ room self.old }
        ensures stands { HasHeard (stands self.old) (stands self.new) (carrier ∷ []) }
        ensures room { room self.old ≤ room self.new + 1 }
        ensures moves { CountsOne (moves self.old) (moves self.new) };

    /// How often the core was moved since it was settled.
    fn moves(&self) -> u64
        ensures { result ≡ moves self.now };
}
