//! What stands behind a trace: what terminals hear on a cable, or something else.
ghost use Rattle.std.specs.Prelude.{◌≡◌, ◌≤◌, IfOk};
ghost use Rattle.bus_command.specs.Heard as definition;
ghost use Rattle.bus_command.specs.Heard.{most_line};
ghost use Rattle.bus_command.specs.inside.Looking.{CountsLook, TakesLooked, TakesLine, TakesLines};

use bus_outer::{Pull, Source};

/// The most bytes of a line that are looked at: more than any line of a heard text has.
const MOST_LINE: usize = 32;

/// The most lines of a heard text behind its first one.
const MOST_LINES: u64 = 1_099_511_627_776;

/// A pull failed.
#[derive(Clone, Copy, Debug, PartialEq, Eq)]
pub(crate) struct PullFault;

/// What a line behind a trace is.
#[derive(Clone, Copy, Debug, PartialEq, Eq)]
pub(crate) enum Line {
    /// The line with which a heard text ends.
    Last,
    /// That of a reception which is garbled.
    Garbled,
    /// That of another reception, or of a terminal.
    Plain,
    /// None of a heard text.
    Other,
}

/// Whether a line begins and ends so.
fn is_between(line: &[u8], front: &[u8], back: &[u8]) -> bool
    ensures { result ≡ definition.is_between line.now front.now back.now }
{
    line.starts_with(front) && line.ends_with(back)
}

/// Whether it is that of another reception, or of a terminal.
fn is_plain(line: &[u8]) -> bool
    ensures { result ≡ definition.is_plain line.now }
{
    is_between(line, b"HT ", b" -\n") || is_between(line, b"TERMINAL ", b"\n")
}

/// What a line is.
fn line_of(line: &[u8]) -> Line
    ensures { result ≡ definition.line_of line.now }
{
    if line == b"END\n".as_slice() {
        Line::Last
    } else if is_between(line, b"HT ", b" C\n") {
        Line::Garbled
    } else if is_plain(line) {
        Line::Plain
    } else {
        Line::Other
    }
}

/// Whether a heard text begins with this line.
fn is_first(line: &[u8]) -> bool
    ensures { result ≡ definition.is_first line.now }
{
    line == b"HEARD 1\n".as_slice()
}

/// Takes the next line, as far as it is looked at: up to its line feed. Says how many bytes that is.
fn take_line<S: Source>(source: &mut S, line: &mut [u8; MOST_LINE]) -> Result<usize, PullFault>
    ensures bound { IfOk result (λ n. n ≤ most_line) }
    ensures taken { TakesLine (S.left source.old) (S.left source.new) line.new result }
    ensures counts { CountsLook (S.faults source.old) (S.faults source.new) result }
{
    let mut count = 0;
    'pieces: while count < MOST_LINE {
        match source.pull_line(&mut line[count..]) {
            Pull::Got(n) => count += n,
            Pull::End => return Ok(count),
            Pull::Failed => return Err(PullFault),
        }
        if line[count - 1] == b'\n' {
            return Ok(count);
        }
    }
    Ok(count)
}

/// How many receptions are garbled in the lines behind the first one of a heard text; None where they are none of one.
fn count_lines<S: Source>(source: &mut S) -> Result<Option<u64>, PullFault>
    ensures taken { TakesLines (S.left source.old) (S.left source.new) result }
    ensures counts { CountsLook (S.faults source.old) (S.faults source.new) result }
{
    let mut line = [0u8; MOST_LINE];
    let mut garbled = 0;
    for _ in 0..MOST_LINES {
        let count = take_line(source, &mut line)?;
        match line_of(&line[..count]) {
            Line::Last => return Ok(Some(garbled)),
            Line::Garbled => garbled += 1,
            Line::Plain => {}
            Line::Other => return Ok(None),
        }
    }
    Ok(None)
}

/// How many receptions are garbled in the heard text that is next in a source; None where none is. No byte is taken behind what decides.
pub(crate) fn count_garbled<S: Source>(source: &mut S) -> Result<Option<u64>, PullFault>
    ensures taken { TakesLooked (S.left source.old) (S.left source.new) result }
    ensures counts { CountsLook (S.faults source.old) (S.faults source.new) result }
{
    let mut line = [0u8; MOST_LINE];
    let count = take_line(source, &mut line)?;
    if is_first(&line[..count]) {
        count_lines(source)
    } else {
        Ok(None)
    }
}
