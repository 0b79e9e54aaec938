//! Units.
ghost use Rattle.std.specs.Prelude.{◌≡◌, ◌<◌, ◌≤◌, IfSome};
ghost use Rattle.bus_units.specs.Quantities as definition;

/// A unit of a length or of a clock.
#[derive(Clone, Copy, Debug, PartialEq, Eq)]
pub(crate) enum Unit {
    /// `ns`
    Nanosecond,
    /// `us`
    Microsecond,
    /// `ms`
    Millisecond,
    /// `bt`: a bit time, 500 nanoseconds.
    BitTime,
    /// `ppm`: a millionth of a clock's frequency.
    Millionth,
}

impl Unit {
    /// How many nanoseconds a unit of lengths has; None of one of clocks.
    pub fn nanoseconds(self) -> Option<u64>
        ensures value { result ≡ definition.nanoseconds self }
        ensures bound { IfSome result (λ count. count ≤ 1000000) }
        ensures positive { IfSome result (λ count. 0 < count) }
    {
        match self {
            Unit::Nanosecond => Some(1),
            Unit::Microsecond => Some(1000),
            Unit::Millisecond => Some(1_000_000),
            Unit::BitTime => Some(500),
            Unit::Millionth => None,
        }
    }
}

/// The unit of this name.
pub(crate) fn unit_of(name: &[u8]) -> Option<Unit>
    ensures { result ≡ definition.unit_of name.now }
{
    if name == b"ns".as_slice() {
        Some(Unit::Nanosecond)
    } else if name == b"us".as_slice() {
        Some(Unit::Microsecond)
    } else if name == b"ms".as_slice() {
        Some(Unit::Millisecond)
    } else if name == b"bt".as_slice() {
        Some(Unit::BitTime)
    } else if name == b"ppm".as_slice() {
        Some(Unit::Millionth)
    } else {
        None
    }
}
