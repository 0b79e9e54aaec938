//! The forms of the lines of a table text.
ghost use Rattle.std.specs.Prelude.{◌≡◌, ◌<◌, ◌-◌, IfOk, IsTrue, true, Some, None, Ok, Err, if◌then◌else◌};
ghost use Rattle.std.specs.Int.{is_in_range};
ghost use Rattle.std.specs.Option.{option_map_or};
ghost use Rattle.bus_text.specs.Entries.{texts};
ghost use Rattle.bus_text.specs.inside.Gives.{LineGives};
ghost use Rattle.bus_text.specs.Numbers.{is_hexadecimal, hexadecimal_value};
ghost use Rattle.bus_text.specs.declared.reason.Reason.TheVariants.{Spelling};
ghost use Rattle.bus_table.specs.Forms as forms;
ghost use Rattle.bus_table.specs.Ranges.{is_ext, is_number, is_send_line, is_take_line, kept};

use crate::head::Head;
use crate::line::{SendLine, TakeLine};
use crate::mode::Mode;
use bus_strings::limits::{MOST_TERMINAL, MOST_WORDS};
use bus_text::{LineFault, Reason, field_at, hexadecimal, is_at, plain_decimal};
use bus_words::{Ext, Label};

/// The TABLE line.
#[tactic(auto, unfolding(crate::specs::Forms::table_reading))]
pub fn table_line(fields: &[&[u8]]) -> Result<(), LineFault>
    ensures { LineGives (λ u. u) result (forms.table_reading (texts fields.now)) }
{
    if fields.len() != 2 || !is_at(fields, 1, b"1") {
        return Err(LineFault::Refused(Reason::Fields));
    }
    Ok(())
}

/// The MODE line.
#[tactic(auto, unfolding(crate::specs::Forms::mode_reading))]
pub fn mode_line(fields: &[&[u8]]) -> Result<Mode, LineFault>
    ensures { LineGives (λ mode. mode) result (forms.mode_reading (texts fields.now)) }
{
    if fields.len() != 2 {
        return Err(LineFault::Refused(Reason::Fields));
    }
    if is_at(fields, 1, Mode::Periodic.word().as_bytes()) {
        return Ok(Mode::Periodic);
    }
    if is_at(fields, 1, Mode::Aperiodic.word().as_bytes()) {
        return Ok(Mode::Aperiodic);
    }
    Err(LineFault::Refused(Reason::Spelling))
}

/// The number, where it is in this range.
fn within(number: u64, least: u32, most: u32) -> Option<u32>
    ensures { result ≡ kept (is_in_range least most) number }
{
    if (u64::from(least)..=u64::from(most)).contains(&number) {
        Some(number as u32)
    } else {
        None
    }
}

/// A line of a keyword and a number in this range.
#[tactic(auto, unfolding(crate::specs::Forms::number_reading))]
pub fn number_line(fields: &[&[u8]], least: u32, most: u32) -> Result<u32, LineFault>
    ensures { LineGives (λ n. n) result (forms.number_reading (is_in_range least most) (texts fields.now)) }
{
    if fields.len() != 2 {
        return Err(LineFault::Refused(Reason::Fields));
    }
    let number = plain_decimal(field_at(fields, 1)).ok_or(Reason::Spelling)?;
    match within(number, least, most) {
        Some(value) => Ok(value),
        None => Err(LineFault::Refused(Reason::Range)),
    }
}

/// A LISTENER line: its terminal number.
#[tactic(auto, unfolding(crate::specs::Forms::number_reading))]
pub fn listener_line(fields: &[&[u8]]) -> Result<u8, LineFault>
    ensures exact { LineGives (λ n. n) result (forms.number_reading is_number (texts fields.now)) }
    ensures range { IfOk result (λ n. IsTrue (is_number n)) }
{
    match number_line(fields, 1, u32::from(MOST_TERMINAL)) {
        Ok(number) => Ok(number as u8),
        Err(fault) => Err(fault),
    }
}

/// The SENDER line of an aperiodic table.
#[tactic(auto, unfolding(crate::specs::Forms::sender_reading))]
fn gap_line(fields: &[&[u8]]) -> Result<Head, LineFault>
    ensures { LineGives (λ head. head) result (forms.sender_reading (texts fields.now)) }
{
    if fields.len() != 4 || !is_at(fields, 2, b"TG") {
        return Err(LineFault::Refused(Reason::Fields));
    }
    let number = plain_decimal(field_at(fields, 1)).ok_or(Reason::Spelling)?;
    let tg = plain_decimal(field_at(fields, 3)).ok_or(Reason::Spelling)?;
    match Head::new(number, tg, 0) {
        Some(head) => Ok(head),
        None => Err(LineFault::Refused(Reason::Range)),
    }
}

/// The SENDER line of a periodic table, which has an offset.
#[tactic(auto, unfolding(crate::specs::Forms::offset_reading))]
fn offset_line(fields: &[&[u8]]) -> Result<Head, LineFault>
    ensures { LineGives (λ head. head) result (forms.offset_reading (texts fields.now)) }
{
    if fields.len() != 6 || !is_at(fields, 2, b"TG") || !is_at(fields, 4, b"AT") {
        return Err(LineFault::Refused(Reason::Fields));
    }
    let number = plain_decimal(field_at(fields, 1)).ok_or(Reason::Spelling)?;
    let tg = plain_decimal(field_at(fields, 3)).ok_or(Reason::Spelling)?;
    let at = plain_decimal(field_at(fields, 5)).ok_or(Reason::Spelling)?;
    match Head::new(number, tg, at) {
        Some(head) => Ok(head),
        None => Err(LineFault::Refused(Reason::Range)),
    }
}

/// A SENDER line of a table of this mode.
pub fn sender_line(mode: Mode, fields: &[&[u8]]) -> Result<Head, LineFault>
    ensures { LineGives (λ head. head) result (forms.head_reading mode (texts fields.now)) }
{
    match mode {
        Mode::Aperiodic => gap_line(fields),
        Mode::Periodic => offset_line(fields),
    }
}

/// A label: three hexadecimal digits.
fn label(field: &[u8]) -> Option<Label>
    ensures { result ≡ (if is_hexadecimal 3 field.now then Some (hexadecimal_value field.now) else None) }
{
    match hexadecimal(field, 3) {
        Some(value) => Label::new(value as u16),
        None => None,
    }
}

/// An extension: one hexadecimal digit.
fn ext(field: &[u8]) -> Option<Ext>
    ensures { result ≡ (if is_hexadecimal 1 field.now then Some (hexadecimal_value field.now) else None) }
{
    match hexadecimal(field, 1) {
        Some(value) => Ext::new(value as u8),
        None => None,
    }
}

/// A SEND line with these numbers of data words, where they are in their ranges.
fn send_of(label: Label, ext: Ext, least: u64, most: u64) -> Option<SendLine>
    ensures { result ≡ kept is_send_line (record { label = label; ext = ext; least = least; most = most }) }
{
    // The types of both keep their ranges, which are known from here on.
    let _ranges = (label.value(), ext.value());
    if least <= most && most <= MOST_WORDS as u64 {
        Some(SendLine {
            label,
            ext,
            least: least as u16,
            most: most as u16,
        })
    } else {
        None
    }
}

/// A SEND line.
#[tactic(auto, unfolding(crate::specs::Forms::send_reading))]
pub fn send_line(fields: &[&[u8]]) -> Result<SendLine, LineFault>
    ensures exact { LineGives (λ line. line) result (forms.send_reading (texts fields.now)) }
    ensures ranges { IfOk result (λ line. IsTrue (is_send_line line)) }
{
    if fields.len() != 5 {
        return Err(LineFault::Refused(Reason::Fields));
    }
    let label = label(field_at(fields, 1)).ok_or(Reason::Spelling)?;
    let ext = ext(field_at(fields, 2)).ok_or(Reason::Spelling)?;
    let least = plain_decimal(field_at(fields, 3)).ok_or(Reason::Spelling)?;
    let most = plain_decimal(field_at(fields, 4)).ok_or(Reason::Spelling)?;
    match send_of(label, ext, least, most) {
        Some(line) => Ok(line),
        None => Err(LineFault::Refused(Reason::Range)),
    }
}

/// What stands for every extension.
const STAR: &[u8] = b"*";

/// An extension, or None for the `*` of every extension.
fn taken_ext(field: &[u8]) -> Result<Option<Ext>, Reason>
    ensures { result ≡ (if forms.is_ext_spelled field.now then Ok (forms.ext_of field.now) else Err Spelling) }
{
    if field == STAR {
        return Ok(None);
    }
    match ext(field) {
        Some(ext) => Ok(Some(ext)),
        None => Err(Reason::Spelling),
    }
}

/// A look at an extension, of which nothing is left in the built program, makes its range known.
fn look_at_ext(ext: &Option<Ext>)
    ensures { IsTrue (option_map_or is_ext ext.now true) }
{
    if let Some(ext) = ext {
        let _range = ext.value();
    }
}

/// A TAKE line of this place and this number of data words, where they are in their ranges.
fn take_of(label: Label, ext: Option<Ext>, first: u64, count: u64) -> Option<TakeLine>
    ensures { result ≡ kept is_take_line (record { label = label; ext = ext; first = first; count = count }) }
{
    // The type of the label keeps its range, which is known from here on.
    let _range = label.value();
    look_at_ext(&ext);
    if first < MOST_WORDS as u64 && (1..=MOST_WORDS as u64).contains(&count) {
        Some(TakeLine {
            label,
            ext,
            first: first as u16,
            count: count as u16,
        })
    } else {
        None
    }
}

/// A TAKE line.
#[tactic(auto, unfolding(crate::specs::Forms::take_reading))]
pub fn take_line(fields: &[&[u8]]) -> Result<TakeLine, LineFault>
    ensures exact { LineGives (λ line. line) result (forms.take_reading (texts fields.now)) }
    ensures ranges { IfOk result (λ line. IsTrue (is_take_line line)) }
{
    if fields.len() != 5 {
        return Err(LineFault::Refused(Reason::Fields));
    }
    let label = label(field_at(fields, 1)).ok_or(Reason::Spelling)?;
    let ext = taken_ext(field_at(fields, 2))?;
    let first = plain_decimal(field_at(fields, 3)).ok_or(Reason::Spelling)?;
    let count = plain_decimal(field_at(fields, 4)).ok_or(Reason::Spelling)?;
    match take_of(label, ext, first, count) {
        Some(line) => Ok(line),
        None => Err(LineFault::Refused(Reason::Range)),
    }
}
