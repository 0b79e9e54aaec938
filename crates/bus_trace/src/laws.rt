//! Laws of trace texts, each the contract of a function that does nothing.
ghost use Rattle.bus_trace.specs.TraceLaws.{ReadsBack, ReadsOnlyTraces, StandsAlone};

use bus_strings::laws::neighbours_tell;

/// What follows of the grammar of traces: laws, with no work in the built program.
pub fn traces_read_back()
    ensures back { ReadsBack }
    ensures only { ReadsOnlyTraces }
    ensures alone { StandsAlone }
{
    neighbours_tell();
}
