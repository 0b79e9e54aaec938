//! What holds of the pictures and numbers of a page.
ghost use Rattle.bus_page.specs.Laws.{WidthsAreOfTheScale, CyclesAreTheVerdicts, SlotsFillTheInterval, EachIsSynchronized};
ghost use Rattle.bus_page.specs.Laws.{WaitsAreLatencies};
ghost use Rattle.bus_page.specs.Laws.{BarsAreTheRules, ChecksumIsCrc32, RoomsAreTheRules, TextsHaveNoTags, TurnsFollowOneAnother};

use bus_explain::laws::load_is_of_longest_cycle;
use bus_reach::laws::{accepted_bear_zero, limits_tell_bearing};

/// The box of two moments is as wide as these are apart by the scale, or a unit wider, which is a tenth of a pixel; but at least a pixel.
pub fn widths_are_of_the_scale()
    ensures { WidthsAreOfTheScale }
{}

/// The cycles that are drawn of an accepted aperiodic table end where its verdict says.
pub fn cycles_are_the_verdicts()
    ensures { CyclesAreTheVerdicts }
{}

/// In both cycles that are drawn a gap begins where a message ends, and the first where the synchronization gap does.
pub fn turns_follow_one_another()
    ensures { TurnsFollowOneAnother }
{}

/// An accepted table bears exactly the delays that each rule bears of which a bar is drawn, and a bar stands out exactly where its rule
/// bears no more.
pub fn bars_are_the_rules()
    ensures { BarsAreTheRules }
{
    limits_tell_bearing();
    accepted_bear_zero();
}

/// A rule of the margins stands out exactly where it lacks.
pub fn rooms_are_the_rules()
    ensures { RoomsAreTheRules }
{}

/// The gaps and messages that are drawn of the interval of an accepted periodic table have together as many bit times as it has.
pub fn slots_fill_the_interval()
    ensures { SlotsFillTheInterval }
{
    load_is_of_longest_cycle();
}

/// Each sender of an accepted periodic table is synchronized by a gap that is drawn.
pub fn each_is_synchronized()
    ensures { EachIsSynchronized }
{}

/// The longest wait of a sender and its longest message together are the latency of the data on its last line, without delays.
pub fn waits_are_latencies()
    ensures { WaitsAreLatencies }
{}

/// The text that is shown has no tags, whatever text was given.
pub fn texts_have_no_tags()
    ensures { TextsHaveNoTags }
{}

/// The checksum of a page is CRC-32.
pub fn checksum_is_crc_32()
    ensures { ChecksumIsCrc32 }
{}
