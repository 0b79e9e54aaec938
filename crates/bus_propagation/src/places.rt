//! Places on a straight cable, and what else is found by the number of a terminal.
ghost use Rattle.std.specs.Prelude.{◌≡◌};
ghost use Rattle.bus_medium.specs.Delays as delays;
ghost use Rattle.bus_propagation.specs.Numbered.{numbered};

/// The greatest place of a terminal on the cable, in bit times from the cable's beginning: a limit of this project's profile.
pub const MOST_PLACE: u64 = 1024;

/// What a list of numbers has for a terminal, and 0 behind its end.
pub fn number_of(numbers: &[u64], terminal: u8) -> u64
    ensures { result ≡ numbered numbers.now terminal }
{
    numbers.get(usize::from(terminal)).copied().unwrap_or(0)
}

/// How far two places are apart, in bit times: by so many a transmission from one is heard later at the other.
pub fn distance(a: u64, b: u64) -> u64
    ensures { result ≡ delays.distance a b }
{
    if a < b { b - a } else { a - b }
}
