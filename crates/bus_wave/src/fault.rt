//! What is wrong with a trace of which no wave is made, and why a wave text isn't read.
ghost use Rattle.std.specs.Prelude.{◌≡◌};
ghost use Rattle.bus_wave.specs.Reasons.{wave_reason_word};

use bus_text::{LineFault, TextError};

/// What is wrong with an entry of a trace that isn't spaced for a table. Each carries the number of the entry, from 0.
#[derive(Clone, Copy, Debug, PartialEq, Eq)]
pub enum WaveFault {
    /// The entry is of no sender of the table.
    Stranger(u64),
    /// Its message doesn't fit its sender.
    Misfit(u64),
    /// It starts less than 8 bit times behind the end of the entry before it.
    Close(u64),
    /// It ends behind the horizon.
    Cut(u64),
}

/// Why a line of a wave text is refused: the first of these that applies.
#[derive(Clone, Copy, Debug, PartialEq, Eq)]
pub enum WaveReason {
    /// The text ends before END, or within the line.
    Ended,
    /// The first field isn't `WAVE` on the first line, or not `Q`, `W` or `END` on a later one, or the line stands behind END.
    Keyword,
    /// The number of fields isn't two, or one for END, or the second field of the first line isn't `1`.
    Fields,
    /// The number is no plain decimal, or the word isn't ten hexadecimal digits in capitals.
    Spelling,
    /// The first six half bits of the word are no sync, or a later pair is `00` or `11`.
    Code,
    /// The parity bit isn't that of the word's value.
    Parity,
    /// The number of quiet bit times is 0, or the line keeps the rules of order and the bit times to its end pass 1,099,511,627,776,
    /// counted with the least rest of a begun message.
    Range,
    /// The line breaks a rule of order (`specs/Judging.antt`).
    Order,
}

impl WaveReason {
    /// The word of the reason in lines that say why a wave is refused.
    pub fn word(self) -> &'static str
        ensures { result.now ≡ wave_reason_word self }
    {
        match self {
            WaveReason::Ended => "Ended",
            WaveReason::Keyword => "Keyword",
            WaveReason::Fields => "Fields",
            WaveReason::Spelling => "Spelling",
            WaveReason::Code => "Code",
            WaveReason::Parity => "Parity",
            WaveReason::Range => "Range",
            WaveReason::Order => "Order",
        }
    }
}

/// Why a wave text wasn't read.
pub type WaveError = TextError<WaveReason>;

impl From<WaveReason> for LineFault<WaveReason> {
    ghost use Rattle.std.specs.Prelude.{◌≡◌};
    ghost use Rattle.bus_text.specs.declared.fault.LineFault.TheVariants.{Refused};

    ghost from_gives = { λ reason fault. fault ≡ Refused reason };

    fn from(reason: WaveReason) -> LineFault<WaveReason> {
        LineFault::Refused(reason)
    }
}
