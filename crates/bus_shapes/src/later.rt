//! When a terminal starts that should have started before.
ghost use Rattle.std.specs.Prelude.{◌≡◌};
ghost use Rattle.bus_shapes.specs.Later as definition;

use bus_strings::Transmission;

/// Whether a transmission is of this terminal and begins behind a moment.
fn starts_behind(x: &Transmission, moment: u64, terminal: u8) -> bool
    ensures { result ≡ definition.starts_behind moment terminal x.now }
{
    x.terminal == terminal && moment < x.moment
}

/// How many bit times behind a moment this terminal starts next, where it does. It goes over the list up to there.
pub(crate) fn later(list: &[Transmission], moment: u64, terminal: u8) -> Option<u64>
    ensures { result ≡ definition.later moment terminal list.now }
{
    let next = list.iter().find(|x| starts_behind(x, moment, terminal))?;
    Some(next.moment.saturating_sub(moment))
}
