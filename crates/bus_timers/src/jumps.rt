//! Timers that pass a whole stretch, or a whole history, at once.
ghost use Rattle.std.specs.Prelude.{ℕ, ◌+◌, ◌≤◌, Bool, List, replicate, Option};
ghost use Rattle.bus_timers.specs.declared.timing.Timing.{Timing};
ghost use Rattle.bus_timers.specs.Told.{CountsOne, HasHeard};
ghost use Rattle.bus_timers.specs.Histories.{HasHeardAll};
ghost use Rattle.bus_timers.specs.Wait.{IsWait, longest_pass};

use crate::cores::Core;
use crate::history::History;

/// Timers that tell how long they wait, and that are passed a whole stretch of bit times, or a whole history, at once.
///
/// No call takes memory. How far a core is passed at once is a limit of this project, no fact of ARINC 629.
pub trait JumpCore: Core {
    /// The least number of further quiet bit times after which the terminal may start: 0 where it may start now.
    fn wait(&self) -> u64
        ensures { (timing : Timing) (past : List Bool) (last : Option ℕ) → Self.stands self.now timing past last
            → IsWait timing past last result };

    /// So many bit times have passed, up to 1,099,511,627,776, all with carrier or all without: the core stands
    /// where as many calls of `pass` leave it, and this is one move.
    fn pass_many(&mut self, carrier: bool, bits: u64)
        requires few { bits ≤ longest_pass }
        requires room { bits ≤ Self.room self.old }
        ensures stands { HasHeard (Self.stands self.old) (Self.stands self.new) (replicate bits carrier) }
        ensures room { Self.room self.old ≤ Self.room self.new + bits }
        ensures moves { CountsOne (Self.moves self.old) (Self.moves self.new) };

    /// A whole history has passed, of up to 1,099,511,627,776 bit times: the core stands where as many calls of
    /// `pass` leave it, whichever bit times the history tells of, and this is one move.
    fn hear(&mut self, history: History)
        requires few { history.bits ≤ longest_pass }
        requires room { history.bits ≤ Self.room self.old }
        ensures stands { HasHeardAll (Self.stands self.old) (Self.stands self.new) history }
        ensures room { Self.room self.old ≤ Self.room self.new + history.bits }
        ensures moves { CountsOne (Self.moves self.old) (Self.moves self.new) };
}
