//! The first breach of a trace, as a dump and its save file show it.
ghost use Rattle.std.specs.Prelude.{◌≡◌, ◌<◌, ◌≤◌};
ghost use Rattle.bus_dump.specs.Scenes as definition;
ghost use Rattle.bus_dump.specs.inside.TimerWalks.{BreachStays};

/// The first breach of a trace.
#[derive(Clone, Copy, Debug, PartialEq, Eq)]
pub struct FirstBreach {
    /// Its moment.
    pub moment: u64,
    /// The terminal that it names.
    pub terminal: u8,
}

/// Whether a breach, of which this is the moment where there is one, is at bit time t.
pub(crate) fn is_breach(breach: Option<u64>, t: u64) -> bool
    ensures { result ≡ definition.is_breach breach t }
{
    match breach {
        Some(moment) => moment == t,
        None => false,
    }
}

/// The next bit time behind t at which the breach comes or goes, or the limit.
pub(crate) fn next_breach(breach: Option<u64>, t: u64, limit: u64) -> u64
    requires { t < limit }
    ensures later { t < result }
    ensures most { result ≤ limit }
    ensures same { BreachStays breach t result }
{
    match breach {
        Some(moment) if t < moment => moment.min(limit),
        Some(moment) if t == moment => t + 1,
        _ => limit,
    }
}
