//! Why a text gives no valid table, as JSON values.
ghost use Rattle.std.specs.Prelude.{◌≡◌, map, IfOk};
ghost use Rattle.std.specs.List.{filter};
ghost use Rattle.serde_json.specs.View.{view};
ghost use Rattle.bus_table.specs.Forms.{all_keywords, word_of};
ghost use Rattle.bus_table.specs.Stops as stops;
ghost use Rattle.bus_facts.specs.Wrong as wrong;

use crate::values::{ext_text, label_text};
use bus_table::{Keyword, Stop, WholeReason};
use bus_text::Reason;
use bus_words::{Ext, Label};
use serde_json::{Value, json};
use std::alloc::{AllocError, Global};

/// Every keyword of a table text.
const KEYWORDS: [Keyword; 8] = [
    Keyword::Table,
    Keyword::Mode,
    Keyword::Ti,
    Keyword::Sg,
    Keyword::Sender,
    Keyword::Send,
    Keyword::Take,
    Keyword::Listener,
];

/// How a keyword is spelled.
fn word(keyword: Keyword) -> &'static str
    ensures { result.now ≡ word_of keyword }
{
    match keyword {
        Keyword::Table => "TABLE",
        Keyword::Mode => "MODE",
        Keyword::Ti => "TI",
        Keyword::Sg => "SG",
        Keyword::Sender => "SENDER",
        Keyword::Send => "SEND",
        Keyword::Take => "TAKE",
        Keyword::Listener => "LISTENER",
    }
}

/// Each keyword whose lines may stand at a stop.
fn all_standing(alloc: Global, stop: &Stop) -> Result<Vec<Value>, AllocError>
    ensures { IfOk result (λ values. map view values.items ≡ map wrong.keyword_value (filter (stops.may_stand stop.now) all_keywords)) }
{
    let mut values = Vec::new(alloc);
    for keyword in &KEYWORDS {
        if stop.may_stand(*keyword) {
            values.push(Value::try_from_str(alloc, word(*keyword))?)?;
        }
    }
    Ok(values)
}

/// The keywords whose lines may stand at a stop.
fn standing_value(alloc: Global, stop: &Stop) -> Result<Value, AllocError>
    ensures { IfOk result (λ value. view value ≡ wrong.standing_value stop.now) }
{
    match stop.keyword() {
        Some(keyword) => json!(in alloc; [word(keyword)]),
        None => Ok(Value::from(all_standing(alloc, stop)?)),
    }
}

/// Whether the text may end at a stop, in place of the line that is refused.
fn may_end(stop: &Stop) -> bool
    ensures { result ≡ wrong.may_end_at stop.now (stops.fitting stop.now) }
{
    match stop.keyword() {
        Some(_) => false,
        None => stop.may_end(),
    }
}

/// The keyword of a line that is one too many of its kind, or null.
fn spent_value(alloc: Global, stop: &Stop) -> Result<Value, AllocError>
    ensures { IfOk result (λ value. view value ≡ wrong.spent_value (stops.spent stop.now)) }
{
    match stop.spent() {
        Some(keyword) => Value::try_from_str(alloc, word(keyword)),
        None => Ok(Value::Null),
    }
}

/// Which line of a text is refused and why, and what may stand there.
pub(crate) fn text_value(
    alloc: Global,
    line: u64,
    reason: Reason,
    stop: &Stop,
) -> Result<Value, AllocError>
    ensures { IfOk result (λ value. view value ≡ wrong.text_value line reason stop.now) }
{
    let keywords = standing_value(alloc, stop)?;
    let spent = spent_value(alloc, stop)?;
    json!(in alloc; {
        "keywords": keywords,
        "kind": "text",
        "line": line,
        "may_end": may_end(stop),
        "reason": reason.word(),
        "spent": spent
    })
}

/// A reason alone.
fn bare_value(alloc: Global, reason: &str) -> Result<Value, AllocError>
    ensures { IfOk result (λ value. view value ≡ wrong.bare_value reason.now) }
{
    json!(in alloc; {"kind": "table", "reason": reason})
}

/// A reason, and the terminal in question.
fn terminal_value(alloc: Global, reason: &str, terminal: u8) -> Result<Value, AllocError>
    ensures { IfOk result (λ value. view value ≡ wrong.terminal_value reason.now terminal) }
{
    json!(in alloc; {"kind": "table", "reason": reason, "terminal": terminal})
}

/// The label and extension that two SEND lines have.
fn pair_value(alloc: Global, label: Label, ext: Ext) -> Result<Value, AllocError>
    ensures { IfOk result (λ value. view value ≡ wrong.pair_value label ext) }
{
    let ext = ext_text(alloc, ext)?;
    let label = label_text(alloc, label)?;
    json!(in alloc; {"ext": ext, "kind": "table", "label": label, "reason": "PairTwice"})
}

/// Why a table is wrong as a whole.
pub(crate) fn whole_value(alloc: Global, reason: WholeReason) -> Result<Value, AllocError>
    ensures { IfOk result (λ value. view value ≡ wrong.whole_value reason) }
{
    match reason {
        WholeReason::NoSender => bare_value(alloc, "NoSender"),
        WholeReason::NumberTwice(terminal) => terminal_value(alloc, "NumberTwice", terminal),
        WholeReason::GapTwice(terminal) => terminal_value(alloc, "GapTwice", terminal),
        WholeReason::GapNotShort(terminal) => terminal_value(alloc, "GapNotShort", terminal),
        WholeReason::PairTwice(label, ext) => pair_value(alloc, label, ext),
        WholeReason::OffsetRange(terminal) => terminal_value(alloc, "OffsetRange", terminal),
    }
}
