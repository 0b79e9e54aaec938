//! What a line of a wave text says by itself.
ghost use Rattle.std.specs.Prelude.{◌≡◌, ◌==◌, ◌-◌, ◌<◌, ◌∷◌, []};
ghost use Rattle.std.specs.Prelude.{MatchOption, IfOk, IfErr, false, true, length, slice_index_or};
ghost use Rattle.std.specs.Prelude.{Ok, Err};
ghost use Rattle.bus_trace.specs.States.{spaced_fields};
ghost use Rattle.bus_wave.specs.Symbols.{head_reading, symbol_reading, word_reading, quiet_reading};
ghost use Rattle.bus_wave.specs.inside.Capped.{capped};
ghost use Rattle.bus_wave.specs.inside.Parts.{HasLine};
ghost use Rattle.bus_text.specs.Lines.{is_feed};
ghost use Rattle.std.specs.List.{slice_split};

use crate::code::{are_digits, heard};
use crate::fault::WaveReason;
use crate::pieces::cut;
use crate::quick::{quiet_line, word_line};
use bus_text::plain_decimal;
use bus_words::{Word, unframe};

const WAVE: &[u8] = b"WAVE";

const ONE: &[u8] = b"1";

const WORD: &[u8] = b"W";

const QUIET: &[u8] = b"Q";

const END: &[u8] = b"END";

/// What a line of a wave text behind the first says by itself.
#[derive(Clone, Copy, Debug, PartialEq, Eq)]
pub(crate) enum Symbol {
    /// So many quiet bit times.
    Quiet(u64),
    /// A word.
    Sent(Word),
    /// The last line.
    End,
}

/// The first field of a line.
fn keyword(line: &[u8]) -> &[u8]
    ensures { result.now ≡ slice_index_or (spaced_fields line.now) 0 [] }
{
    match cut(b' ', line) {
        Some((field, _)) => field,
        None => line,
    }
}

/// The second field of a line of two fields.
fn second(line: &[u8]) -> Result<&[u8], WaveReason>
    ensures two { IfOk result (λ field. (length (spaced_fields line.now) ≡ 2)
        × (field.now ≡ slice_index_or (spaced_fields line.now) 1 [])) }
    ensures other { IfErr result (λ reason. (reason ≡ WaveReason.Fields) × ((length (spaced_fields line.now) == 2) ≡ false)) }
{
    let Some((_, rest)) = cut(b' ', line) else {
        return Err(WaveReason::Fields);
    };
    match cut(b' ', rest) {
        Some(_) => Err(WaveReason::Fields),
        None => Ok(rest),
    }
}

/// Whether a line has one field.
fn is_alone(line: &[u8]) -> bool
    ensures { result ≡ (length (spaced_fields line.now) == 1) }
{
    match cut(b' ', line) {
        None => true,
        Some(_) => false,
    }
}

/// What the second field of a W line says.
fn word_of(field: &[u8]) -> Result<Symbol, WaveReason>
    ensures { result ≡ word_reading field.now }
{
    if !are_digits(field) {
        return Err(WaveReason::Spelling);
    }
    let Some(frame) = heard(field) else {
        return Err(WaveReason::Code);
    };
    match unframe(frame) {
        Ok(word) => Ok(Symbol::Sent(word)),
        Err(_) => Err(WaveReason::Parity),
    }
}

/// What the second field of a Q line says: its number, or the last value of a `u64` where it is above that.
fn quiet_of(field: &[u8]) -> Result<Symbol, WaveReason>
    ensures { result ≡ capped (quiet_reading field.now) }
{
    match plain_decimal(field) {
        Some(bit_times) => Ok(Symbol::Quiet(bit_times)),
        None => Err(WaveReason::Spelling),
    }
}

/// What a line behind the first says; a number above the last value of a `u64` is that value.
#[tactic(auto, unfolding(crate::specs::Symbols::symbol_reading))]
fn symbol_of(line: &[u8]) -> Result<Symbol, WaveReason>
    ensures { result ≡ capped (symbol_reading (spaced_fields line.now)) }
{
    let keyword = keyword(line);
    if keyword == WORD {
        return word_of(second(line)?);
    }
    if keyword == QUIET {
        return quiet_of(second(line)?);
    }
    if keyword != END {
        return Err(WaveReason::Keyword);
    }
    if !is_alone(line) {
        return Err(WaveReason::Fields);
    }
    Ok(Symbol::End)
}

/// What the line at the front of a text says, and what is behind that line; None where there is no line feed.
pub(crate) fn first_symbol(text: &[u8]) -> Option<(Result<Symbol, WaveReason>, &[u8])>
    ensures line { MatchOption result (slice_split is_feed text.now ≡ text.now ∷ []) (λ r. HasLine text.now r.0 r.1.now) }
    ensures shorter { MatchOption result (text.now ≡ text.now) (λ r. length r.1.now < length text.now) }
{
    if let Some((word, behind)) = word_line(text) {
        return Some((Ok(Symbol::Sent(word)), behind));
    }
    if let Some((bit_times, behind)) = quiet_line(text) {
        return Some((Ok(Symbol::Quiet(bit_times)), behind));
    }
    match cut(b'\n', text) {
        None => None,
        Some((line, behind)) => Some((symbol_of(line), behind)),
    }
}

/// Reads the first line.
#[tactic(auto, unfolding(crate::specs::Symbols::head_reading))]
pub(crate) fn head_of(line: &[u8]) -> Result<(), WaveReason>
    ensures { result ≡ head_reading (spaced_fields line.now) }
{
    if keyword(line) != WAVE {
        return Err(WaveReason::Keyword);
    }
    if second(line)? != ONE {
        return Err(WaveReason::Fields);
    }
    Ok(())
}
