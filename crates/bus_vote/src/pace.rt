//! What a look at the whole list tells that makes walks over it short.
ghost use Rattle.std.specs.Prelude.{◌≡◌, ◌+◌, ◌<◌, ◌≤◌, ℕ, IsTrue, Some, slice_get};
ghost use Rattle.std.specs.Option.{option_copied};
ghost use Rattle.bus_vote.specs.inside.Walks.{IsSent, IsClear, IsSpaced, gap_in};

use crate::mark::is_garbled;
use bus_strings::Transmission;
use bus_strings::limits::TERMINALS;

/// Whether no transmission of a list is garbled.
pub(crate) fn is_clear(list: &[Transmission]) -> bool
    requires { IsSent list.now }
    ensures { IsTrue result → IsClear list.now }
{
    let mut reach = 0;
    for at in 0..list.len() {
        if is_garbled(list, at, reach) {
            return false;
        }
        reach = list[at].end().max(reach);
    }
    true
}

/// The least gap of a terminal, given the least before: one of its transmissions stands at a place, and the last before it stands just
/// before `behind`, which is 0 where there is none.
fn closer(gap: usize, behind: usize, at: usize) -> usize
    requires { behind ≤ at }
    ensures less { result ≤ gap }
    ensures near { 0 < behind → result + behind ≤ at + 1 }
{
    if behind == 0 {
        return gap;
    }
    gap.min(at - behind + 1)
}

/// By terminal number, how many places two of its transmissions stand apart at least.
pub(crate) fn gaps(list: &[Transmission]) -> [usize; TERMINALS]
    ensures { (terminal gap : ℕ) → slice_get result terminal ≡ Some gap → IsSpaced terminal gap list.now }
{
    let mut gaps = [list.len(); TERMINALS];
    // By terminal, the place behind its last transmission so far, and 0 where there is none.
    let mut behind = [0; TERMINALS];
    for at in 0..list.len() {
        let x = &list[at];
        let terminal = usize::from(x.terminal);
        gaps[terminal] = closer(gaps[terminal], behind[terminal], at);
        behind[terminal] = at + 1;
    }
    gaps
}

/// The gap of a terminal, where there are gaps.
pub(crate) fn gap_of(gaps: Option<&[usize]>, terminal: u8) -> Option<usize>
    ensures { result ≡ gap_in (option_copied gaps.entry) terminal }
{
    gaps?.get(usize::from(terminal)).copied()
}
