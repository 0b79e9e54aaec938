//! The words of a command line, and the form that they have.
ghost use Rattle.std.specs.Prelude.{◌≡◌, ◌≤◌, IfSome, Option, Some, None, take, length, if◌then◌else◌};
ghost use Rattle.bus_command.specs.Words.{words_of};
ghost use Rattle.bus_strings.specs.Limits.{horizon_limit};
ghost use Rattle.bus_text.specs.Numbers.{decimal_value};
ghost use Rattle.bus_tool.specs.Forms as forms;
ghost use Rattle.bus_tool.specs.Forms.{is_horizon, is_drill_number, IsWithinLimits};
ghost use Rattle.bus_vectors.specs.Made.{most_number};

use crate::forms::{Form, MessagesCommand, PlanDelay, TableCommand, TraceCommand};
use bus_cable_plan::MOST_DELAY as MOST_PLAN_DELAY;
use bus_command::about_of;
use bus_made::Order;
use bus_options::{OptionSet, Options, bounds_of, line_of, near_bounds_of};
use bus_strings::limits::HORIZON_LIMIT;
use bus_text::plain_decimal;
use bus_units::bits_up;

/// The greatest number of a drill.
const MOST_NUMBER: u64 = 9999;

/// The horizon that a word writes; None where the word is no plain decimal, or the number is past its limit.
fn horizon_of(word: &[u8]) -> Option<u64>
    ensures value { result ≡ (if is_horizon word.now then Some (decimal_value word.now) else None) }
    ensures limit { IfSome result (λ horizon. horizon ≤ horizon_limit) }
{
    let horizon = plain_decimal(word)?;
    if horizon <= HORIZON_LIMIT {
        Some(horizon)
    } else {
        None
    }
}

/// The number of a drill that a word writes; None where the word is no plain decimal, or the number is past its limit.
fn drill_number_of(word: &[u8]) -> Option<u32>
    ensures value { result ≡ (if is_drill_number word.now then Some (decimal_value word.now) else None) }
    ensures limit { IfSome result (λ number. number ≤ most_number) }
{
    let number = plain_decimal(word)?;
    if number <= MOST_NUMBER {
        Some(number as u32)
    } else {
        None
    }
}

/// The form of this word, where it is the only one.
fn one_word(word: &str) -> Option<Form>
    ensures form { result ≡ forms.one_word word.now }
    ensures limits { IfSome result IsWithinLimits }
{
    let about = about_of(word)?;
    Some(Form::OnItself(about))
}

/// A form, where a command takes all options that are given.
fn given(set: OptionSet, options: &Options, form: Option<Form>) -> Option<Form>
    requires { IfSome form IsWithinLimits }
    ensures form { result ≡ forms.given set options.now form }
    ensures limits { IfSome result IsWithinLimits }
{
    if set.takes(options) { form } else { None }
}

/// The form of two plain words without options.
fn two_plain(command: &str, second: &[u8]) -> Option<Form>
    ensures form { result ≡ forms.two_plain command.now second.now }
    ensures limits { IfSome result IsWithinLimits }
{
    if command == "drill" {
        let number = drill_number_of(second)?;
        return Some(Form::Drill { number });
    }
    if command == "check" {
        Some(Form::OnTable(TableCommand::Check))
    } else if command == "tolerance" {
        Some(Form::OnTable(TableCommand::Tolerance))
    } else if command == "tidy" {
        Some(Form::OnTable(TableCommand::Tidy))
    } else if command == "report" {
        Some(Form::OnTable(TableCommand::Report))
    } else if command == "witness" {
        Some(Form::OnTable(TableCommand::Witness))
    } else if command == "explain" {
        Some(Form::Explain)
    } else if command == "facts" {
        Some(Form::Facts)
    } else {
        None
    }
}

/// The form of three plain words, of which these are the first and the last, without options.
fn three_plain(command: &str, third: &str) -> Option<Form>
    ensures form { result ≡ forms.three_plain command.now third.now }
    ensures limits { IfSome result IsWithinLimits }
{
    if command == "plan" && third == "best" {
        let delay = PlanDelay::Greatest;
        Some(Form::OnTable(TableCommand::PlanFor { delay }))
    } else if command == "explain" {
        Some(Form::ExplainBeside)
    } else if command == "run" {
        Some(Form::OnMessages(MessagesCommand::Run))
    } else if command == "drop" {
        Some(Form::OnMessages(MessagesCommand::Drop))
    } else if command == "schedule" {
        Some(Form::OnMessages(MessagesCommand::Schedule))
    } else if command == "receive" {
        Some(Form::OnTrace(TraceCommand::Receive))
    } else if command == "audit" {
        Some(Form::OnTrace(TraceCommand::Audit))
    } else if command == "vote" {
        Some(Form::OnTrace(TraceCommand::Vote))
    } else if command == "wave" {
        Some(Form::OnTrace(TraceCommand::Wave))
    } else if command == "unwave" {
        Some(Form::Unwave)
    } else {
        None
    }
}

/// The form of four plain words, of which these are the first and the last, without options.
fn four_plain(command: &str, horizon: &[u8]) -> Option<Form>
    ensures form { result ≡ forms.four_plain command.now horizon.now }
    ensures limits { IfSome result IsWithinLimits }
{
    if command == "observe" {
        let horizon = horizon_of(horizon)?;
        return Some(Form::OnMessages(MessagesCommand::Observe { horizon }));
    }
    if command == "cable" {
        let horizon = horizon_of(horizon)?;
        return Some(Form::Cable { horizon });
    }
    None
}

/// A plan for a delay in nanoseconds, rounded up to bit times, where one is given.
fn plan_by(delay: Option<u64>) -> Option<Form>
    ensures form { result ≡ forms.plan_by delay }
    ensures limits { IfSome result IsWithinLimits }
{
    let Some(length) = delay else {
        return Some(Form::OnTable(TableCommand::Plan));
    };
    let bits = bits_up(length);
    if bits <= u64::from(MOST_PLAN_DELAY) {
        let delay = PlanDelay::Bits(bits as u32);
        Some(Form::OnTable(TableCommand::PlanFor { delay }))
    } else {
        None
    }
}

/// The margins within the bounds that options ask for.
fn margins_by(options: &Options) -> Option<Form>
    ensures form { result ≡ forms.margins_by (forms.bounds_of options.now) }
    ensures limits { IfSome result IsWithinLimits }
{
    match bounds_of(options) {
        Ok(Some(bounds)) => Some(Form::OnTable(TableCommand::Margins { bounds })),
        Ok(None) | Err(_) => None,
    }
}

/// The order that options ask for.
fn order_by(options: &Options) -> Order
    ensures { result ≡ forms.order_by options.now }
{
    if options.free_order {
        Order::Free
    } else {
        Order::Kept
    }
}

/// The design for the bounds that options ask for. No age can be wished for yet.
fn design_by(options: &Options) -> Option<Form>
    ensures form { result ≡ forms.design_by options.now }
    ensures limits { IfSome result IsWithinLimits }
{
    if options.aged {
        return None;
    }
    let order = order_by(options);
    match bounds_of(options) {
        Ok(Some(bounds)) => Some(Form::OnTable(TableCommand::Design { bounds, order })),
        Ok(None) | Err(_) => None,
    }
}

/// What is found within the bounds that options ask for.
fn diagnose_by(options: &Options) -> Option<Form>
    ensures form { result ≡ forms.diagnose_by (forms.near_bounds_of options.now) }
    ensures limits { IfSome result IsWithinLimits }
{
    match near_bounds_of(options) {
        Ok(Some(bounds)) => Some(Form::OnTrace(TraceCommand::Diagnose { bounds })),
        Ok(None) | Err(_) => None,
    }
}

/// The form of two plain words with options behind.
fn two_words(command: &str, second: &[u8], options: &Options) -> Option<Form>
    ensures form { result ≡ forms.two_words command.now second.now options.now }
    ensures limits { IfSome result IsWithinLimits }
{
    if command == "margins" {
        given(OptionSet::BOUNDS, options, margins_by(options))
    } else if command == "plan" {
        given(OptionSet::DELAY, options, plan_by(options.delay))
    } else if command == "design" {
        given(OptionSet::DESIGN, options, design_by(options))
    } else {
        given(OptionSet::NONE, options, two_plain(command, second))
    }
}

/// The form of three plain words, of which these are the first and the last, with options behind.
fn three_words(command: &str, third: &str, options: &Options) -> Option<Form>
    ensures form { result ≡ forms.three_words command.now third.now options.now }
    ensures limits { IfSome result IsWithinLimits }
{
    if command == "diagnose" {
        given(OptionSet::BOUNDS, options, diagnose_by(options))
    } else {
        given(OptionSet::NONE, options, three_plain(command, third))
    }
}

/// The form of four plain words, of which these are the first and the last, with options behind.
fn four_words(command: &str, fourth: &[u8], options: &Options) -> Option<Form>
    ensures form { result ≡ forms.four_words command.now fourth.now options.now }
    ensures limits { IfSome result IsWithinLimits }
{
    given(OptionSet::NONE, options, four_plain(command, fourth))
}

/// The form of so many plain words, with options behind.
fn form_with(words: &[String], plain: usize, options: &Options) -> Option<Form>
    requires { plain ≤ length words.now }
    ensures form { result ≡ forms.form_with (take plain (words_of words.now)) options.now }
    ensures limits { IfSome result IsWithinLimits }
{
    match plain {
        2 => two_words(words[0].as_str(), words[1].as_bytes(), options),
        3 => three_words(words[0].as_str(), words[2].as_str(), options),
        4 => four_words(words[0].as_str(), words[3].as_bytes(), options),
        _ => None,
    }
}

/// The form of these words; None where they are no form, or a number among them is past its limit.
pub fn form_of(words: &[String]) -> Option<Form>
    ensures form { result ≡ forms.form_of (words_of words.now) }
    ensures limits { IfSome result IsWithinLimits }
{
    match words.len() {
        0 => None,
        1 => one_word(words[0].as_str()),
        _ => match line_of(words) {
            Ok(line) => form_with(words, line.plain, &line.options),
            Err(_) => None,
        },
    }
}
