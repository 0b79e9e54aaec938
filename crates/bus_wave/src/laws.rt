//! Laws of waves, and of the traces that they tell. Each is the contract of a function that does nothing.
ghost use Rattle.bus_wave.specs.WaveLaws.{SpacedPasses, SpacedHaveTexts, WavesReadBack, ReadsOnlyWaves, WavesTell};
ghost use Rattle.bus_wave.specs.WaveLaws.{RunsAreSpaced, RunsAreWaveTraces};

use bus_schedule::laws::gaps_are_left;

/// What follows of waves and their texts: laws, with no work in the built program.
pub fn waves_tell_traces()
    ensures passes { SpacedPasses }
    ensures texts { SpacedHaveTexts }
    ensures back { WavesReadBack }
    ensures only { ReadsOnlyWaves }
    ensures tell { WavesTell }
{}

/// The trace of a run is spaced: of an accepted table in either mode and even hands, of any length, the closed schedule up to the
/// closed end. With one HOLD for each hand and the number of its messages it is read back from its wave text.
pub fn runs_are_spaced()
    ensures spaced { RunsAreSpaced }
    ensures waves { RunsAreWaveTraces }
{
    gaps_are_left();
}
