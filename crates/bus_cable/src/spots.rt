//! Bit times by terminal number, for a look-up in one step.
ghost use Rattle.std.specs.Prelude.{◌≡◌, ℕ, IsTrue};
ghost use Rattle.bus_cable.specs.Cables.{may_name_all, most_wake, bits_for};
ghost use Rattle.bus_propagation.specs.Numbered.{numbered};

use crate::cable::Named;
use bus_strings::limits::TERMINALS;

/// The bit times that are named, by terminal number: 0 where none are.
pub(crate) fn spots(named: &[Named]) -> [u64; TERMINALS]
    requires { IsTrue (may_name_all most_wake 0 named.now) }
    ensures { (n : ℕ) → numbered result n ≡ bits_for named.now n }
{
    let mut spots = [0; TERMINALS];
    for one in named {
        spots[usize::from(one.terminal)] = one.bits;
    }
    spots
}
