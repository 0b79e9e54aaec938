//! The reasons against a table whose numbers are in their ranges.
ghost use Rattle.std.specs.Prelude.{◌≡◌, ◌<◌, ◌==◌, false, [], ◌++◌, Option, IfNone};
ghost use Rattle.std.specs.List.{list_any, find};
ghost use Rattle.std.specs.Option.{option_map};
ghost use Rattle.bus_table.specs.declared.error.WholeReason.TheVariants.{NumberTwice};
ghost use Rattle.bus_table.specs.Whole as whole;
ghost use Rattle.bus_table.specs.inside.Seen.{AreSeen, pair_place};

use crate::error::WholeReason;
use crate::line::SendLine;
use crate::listener::Listener;
use crate::mode::Mode;
use crate::sender::Sender;

/// Whether some sender has this number.
fn has_sender(senders: &[Sender], number: u8) -> bool
    ensures { result ≡ list_any (λ sender. sender.number == number) senders.now }
{
    senders.iter().any(|sender| sender.number() == number)
}

/// Whether some listener has this number.
fn has_listener(listeners: &[Listener], number: u8) -> bool
    ensures { result ≡ list_any (λ listener. listener.number == number) listeners.now }
{
    listeners.iter().any(|listener| listener.number() == number)
}

/// Whether some of these terminals has this number.
fn has_number(senders: &[Sender], listeners: &[Listener], number: u8) -> bool
    ensures { result ≡ list_any (λ n. n == number) (whole.all_numbers senders.now listeners.now) }
{
    has_sender(senders, number) || has_listener(listeners, number)
}

/// Whether some sender has this terminal gap.
fn has_gap(senders: &[Sender], tg: u32) -> bool
    ensures { result ≡ list_any (λ sender. sender.tg == tg) senders.now }
{
    senders.iter().any(|sender| sender.tg() == tg)
}

/// Whether some of these lines has the label and extension of this one.
fn has_pair(lines: &[SendLine], line: &SendLine) -> bool
    ensures { result ≡ list_any (λ other. whole.same_pair other line.now) lines.now }
{
    lines
        .iter()
        .any(|other| other.label == line.label && other.ext == line.ext)
}

/// Whether some line of these senders has the label and extension of this one.
fn is_sent(senders: &[Sender], line: &SendLine) -> bool
    ensures { result ≡ list_any (λ sender. list_any (λ other. whole.same_pair other line.now) sender.sends) senders.now }
{
    senders.iter().any(|sender| has_pair(sender.sends(), line))
}

/// Whether some line of these senders, or one of these lines, has the label and extension of this one.
fn has_send_line(senders: &[Sender], lines: &[SendLine], line: &SendLine) -> bool
    ensures { result ≡ list_any (λ other. whole.same_pair other line.now) (whole.send_lines senders.now ++ lines.now) }
{
    is_sent(senders, line) || has_pair(lines, line)
}

/// The first sender number that an earlier sender has.
fn sender_again(senders: &[Sender]) -> Option<u8>
    ensures { result ≡ whole.first_again (λ n m. n == m) [] (whole.sender_numbers senders.now) }
{
    for (k, sender) in senders.iter().enumerate() {
        if has_sender(&senders[..k], sender.number()) {
            return Some(sender.number());
        }
    }
    None
}

/// The first listener number that a sender or an earlier listener has.
fn listener_again(senders: &[Sender], listeners: &[Listener]) -> Option<u8>
    ensures { result ≡ whole.first_again (λ n m. n == m) (whole.sender_numbers senders.now) (whole.listener_numbers listeners.now) }
{
    for (k, listener) in listeners.iter().enumerate() {
        if has_number(senders, &listeners[..k], listener.number()) {
            return Some(listener.number());
        }
    }
    None
}

/// The first terminal, senders before listeners, whose number an earlier one has.
#[tactic(auto, using(crate::proofs::WholeLemmas::number_again))]
fn number_twice(senders: &[Sender], listeners: &[Listener]) -> Option<WholeReason>
    ensures { result ≡ option_map NumberTwice (whole.first_again (λ n m. n == m) [] (whole.all_numbers senders.now listeners.now)) }
{
    let number = sender_again(senders).or_else(|| listener_again(senders, listeners))?;
    Some(WholeReason::NumberTwice(number))
}

/// The first sender whose gap an earlier sender has. Since no number stands twice, there are at most 128.
fn gap_twice(senders: &[Sender]) -> Option<WholeReason>
    ensures { result ≡ whole.gap_twice senders.now }
{
    for (k, sender) in senders.iter().enumerate() {
        if has_gap(&senders[..k], sender.tg()) {
            return Some(WholeReason::GapTwice(sender.number()));
        }
    }
    None
}

/// The first sender whose gap isn't below this one.
fn gap_not_short(sg: u32, senders: &[Sender]) -> Option<WholeReason>
    ensures { result ≡ whole.gap_not_short sg senders.now }
{
    let sender = senders.iter().find(|sender| sg <= sender.tg())?;
    Some(WholeReason::GapNotShort(sender.number()))
}

/// As many places as pairs of a label and an extension are seen by: more than a table has lines, and few enough to be cleared for each.
const PAIRS: usize = 4096;

/// The place of the pair of a line. Pairs of labels that lie 256 apart share one.
fn pair_place(line: &SendLine) -> usize
    ensures place { result ≡ pair_place line.now }
    ensures within { result < 4096 }
{
    (16 * usize::from(line.label.value()) + usize::from(line.ext.value())) % PAIRS
}

/// Whether some line of these senders, or one of these lines, has the label and extension of this one. Where the pair isn't seen, none has.
fn is_again(senders: &[Sender], lines: &[SendLine], line: &SendLine, seen: bool) -> bool
    requires { seen ≡ false → list_any (λ other. whole.same_pair other line.now) (whole.send_lines senders.now ++ lines.now) ≡ false }
    ensures { result ≡ list_any (λ other. whole.same_pair other line.now) (whole.send_lines senders.now ++ lines.now) }
{
    seen && has_send_line(senders, lines, line)
}

/// The first of these lines whose pair an earlier one of them, or a line of these senders, has. Each pair is seen from then on, so that
/// only lines of a pair that is seen are compared.
fn line_again(senders: &[Sender], lines: &[SendLine], seen: &mut [bool; PAIRS]) -> Option<SendLine>
    requires { AreSeen seen.old (whole.send_lines senders.now) }
    ensures first { result ≡ whole.first_again whole.same_pair (whole.send_lines senders.now) lines.now }
    ensures seen { IfNone result (AreSeen seen.new (whole.send_lines senders.now ++ lines.now)) }
{
    for (k, line) in lines.iter().enumerate() {
        let place = pair_place(line);
        if is_again(senders, &lines[..k], line, seen[place]) {
            return Some(*line);
        }
        seen[place] = true;
    }
    None
}

/// The first SEND line whose pair an earlier one has.
fn pair_twice(senders: &[Sender]) -> Option<WholeReason>
    ensures { result ≡ whole.pair_twice senders.now }
{
    let mut seen = [false; PAIRS];
    for (k, sender) in senders.iter().enumerate() {
        if let Some(line) = line_again(&senders[..k], sender.sends(), &mut seen) {
            return Some(WholeReason::PairTwice(line.label, line.ext));
        }
    }
    None
}

/// The first sender whose offset isn't below the transmit interval.
fn offset_range(ti: u32, senders: &[Sender]) -> Option<WholeReason>
    ensures { result ≡ whole.offset_range ti senders.now }
{
    let sender = senders.iter().find(|sender| ti <= sender.at())?;
    Some(WholeReason::OffsetRange(sender.number()))
}

/// What is asked of the senders of a periodic table alone.
fn periodic_reason(mode: Mode, ti: u32, senders: &[Sender]) -> Option<WholeReason>
    ensures { result ≡ whole.periodic_refusal mode ti senders.now }
{
    match mode {
        Mode::Aperiodic => None,
        Mode::Periodic => offset_range(ti, senders),
    }
}

/// The first whole reason that applies. Each look for what stands twice meets few terminals and lines: behind the
/// first number that stands twice nothing is looked at, so there are at most 128 terminals.
pub fn whole_reason(
    mode: Mode,
    ti: u32,
    sg: u32,
    senders: &[Sender],
    listeners: &[Listener],
) -> Option<WholeReason>
    ensures { result ≡ whole.whole_refusal (record { mode = mode; ti = ti; sg = sg; senders = senders.now; listeners = listeners.now }) }
{
    if senders.is_empty() {
        return Some(WholeReason::NoSender);
    }
    number_twice(senders, listeners)
        .or_else(|| gap_twice(senders))
        .or_else(|| gap_not_short(sg, senders))
        .or_else(|| pair_twice(senders))
        .or_else(|| periodic_reason(mode, ti, senders))
}
