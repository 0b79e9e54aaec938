//! Each pull and each push that fails in turn, over sources and sinks in memory.
use crate::calls::{Ran, is_refused, run_on, run_over, sink_of, words_of};
use crate::texts::{
    FOUR_APART, LONG_GAP, ONE_EACH, ONE_EACH_SEEN, ONE_EACH_WAVE, TWO_PERIODIC_SENDERS, TWO_SENDERS,
};
use bus_outer::{MemorySink, MemorySource};
use bus_tool::{Status, tool};
use std::test::Fail;

/// A call: its words, and both texts.
type Call<'a> = (&'a [&'a str], &'a str, &'a str);

/// Calls of each command that read and write without a refusal.
const CALLS: [Call<'static>; 24] = [
    (&["check", "T"], TWO_SENDERS, ""),
    (&["tolerance", "T"], TWO_SENDERS, ""),
    (
        &["margins", "T", "--delay=500ns", "--clocks=100ppm"],
        TWO_SENDERS,
        "",
    ),
    (&["explain", "T"], TWO_SENDERS, ""),
    (&["report", "T"], TWO_SENDERS, ""),
    (&["facts", "T"], TWO_SENDERS, ""),
    (&["plan", "T"], TWO_PERIODIC_SENDERS, ""),
    (&["plan", "T", "--delay", "4bt"], TWO_PERIODIC_SENDERS, ""),
    (&["plan", "T", "best"], TWO_PERIODIC_SENDERS, ""),
    (&["drill", "0"], "", ""),
    (&["--version"], "", ""),
    (&["witness", "T"], LONG_GAP, ""),
    (&["tidy", "T"], LONG_GAP, ""),
    (&["run", "T", "M"], LONG_GAP, ONE_EACH),
    (&["drop", "T", "M"], LONG_GAP, ONE_EACH),
    (&["schedule", "T", "M"], LONG_GAP, ONE_EACH),
    (&["observe", "T", "M", "150"], LONG_GAP, ONE_EACH),
    (&["cable", "T", "C", "150"], LONG_GAP, FOUR_APART),
    (&["receive", "T", "R"], LONG_GAP, ONE_EACH_SEEN),
    (&["audit", "T", "R"], LONG_GAP, ONE_EACH_SEEN),
    (
        &["diagnose", "T", "R", "--delay", "0bt"],
        LONG_GAP,
        ONE_EACH_SEEN,
    ),
    (&["vote", "T", "R"], LONG_GAP, ONE_EACH_SEEN),
    (&["wave", "T", "R"], LONG_GAP, ONE_EACH_SEEN),
    (&["unwave", "T", "W"], LONG_GAP, ONE_EACH_WAVE),
];

/// More pulls and pushes than a call makes.
const MANY: u64 = 1000;

/// What has to hold of a case.
fn must(holds: bool, what: &'static str) -> Result<(), Fail> {
    if holds {
        return Ok(());
    }
    Err(Fail::from(what))
}

/// A source of this text in small pieces, of which this pull fails.
fn failing(rt: &HostRuntime, text: &str, pull: Option<u64>) -> Result<MemorySource, Fail> {
    let mut pulls = Vec::new(rt.alloc());
    pulls.extend(pull)?;
    Ok(MemorySource::new(text.as_bytes().to_vec(rt.alloc())?, 16, pulls))
}

/// A call in which this pull of the first or of the second source fails.
fn pulled(rt: &HostRuntime, call: Call<'_>, second: bool, pull: u64) -> Result<Ran, Fail> {
    let (words, one, other) = call;
    let one = failing(rt, one, (!second).then_some(pull))?;
    let other = failing(rt, other, second.then_some(pull))?;
    run_over(rt, words, one, other, sink_of(rt, 3000)?)
}

/// How many pulls of a source can fail in a call: each is answered with this line and nothing else.
fn failing_pulls(rt: &HostRuntime, call: Call<'_>, second: bool, line: &str) -> Result<u64, Fail> {
    for pull in 0..MANY {
        let ran = pulled(rt, call, second, pull)?;
        if ran.status != Status::ReadFault {
            must(ran.status == Status::Done, "an answer where no pull fails")?;
            return Ok(pull);
        }
        must(
            is_refused(&ran, Status::ReadFault, line),
            "the line of a failed read alone",
        )?;
    }
    Ok(MANY)
}

#[test]
fn each_pull_that_fails(rt: HostRuntime) -> Result<(), Fail> {
    for call in CALLS {
        let pulls = failing_pulls(&rt, call, false, "ERROR 5 read 1\n")?;
        assert!(rt; pulls < MANY && (pulls == 0) == call.1.is_empty());
        let pulls = failing_pulls(&rt, call, true, "ERROR 5 read 2\n")?;
        assert!(rt; pulls < MANY && (pulls == 0) == call.2.is_empty());
    }
    Ok(())
}

/// Whether a call fails to write at this push, with a beginning of the whole answer on `out`.
fn push_fails(rt: &HostRuntime, call: Call<'_>, whole: &[u8], push: u64) -> Result<bool, Fail> {
    let (words, one, other) = call;
    let out = MemorySink::new(rt.alloc(), 3000, 16, [push].to_vec(rt.alloc())?)?;
    let ran = run_over(
        rt,
        words,
        failing(rt, one, None)?,
        failing(rt, other, None)?,
        out,
    )?;
    must(
        whole.starts_with(ran.out.bytes()),
        "a beginning of the answer",
    )?;
    if ran.status == Status::Done {
        must(ran.out.bytes().len() == whole.len(), "the whole answer")?;
        return Ok(false);
    }
    must(ran.status == Status::WriteFault, "a failed write")?;
    must(
        ran.err.bytes() == b"ERROR 6 write\n".as_slice(),
        "the line of a failed write",
    )?;
    Ok(true)
}

/// How many pushes of `out` can fail in a call.
fn failing_pushes(rt: &HostRuntime, call: Call<'_>) -> Result<u64, Fail> {
    let whole = run_on(rt, call.0, call.1, call.2)?;
    for push in 0..MANY {
        if !push_fails(rt, call, whole.out.bytes(), push)? {
            return Ok(push);
        }
    }
    Ok(MANY)
}

#[test]
fn each_push_that_fails(rt: HostRuntime) -> Result<(), Fail> {
    for call in CALLS {
        let pushes = failing_pushes(&rt, call)?;
        assert!(rt; pushes > 0 && pushes < MANY);
    }
    Ok(())
}

/// A call, whether its first push of `out` fails, and its status and line then.
#[derive(Clone, Copy)]
struct Said<'a> {
    call: Call<'a>,
    out_fails: bool,
    status: Status,
    line: &'a [u8],
}

/// A call whose answer is written or, where its first push fails, isn't.
const fn answered(call: Call<'static>, out_fails: bool) -> Said<'static> {
    if out_fails {
        return Said {
            call,
            out_fails,
            status: Status::WriteFault,
            line: b"ERROR 6 write\n",
        };
    }
    Said {
        call,
        out_fails,
        status: Status::Done,
        line: b"",
    }
}

/// A call that is refused.
const fn refused(call: Call<'static>, status: Status, line: &'static [u8]) -> Said<'static> {
    Said {
        call,
        out_fails: false,
        status,
        line,
    }
}

/// Whether this push of `err` fails: the status stays, and a beginning of the line stands there.
fn line_fails(rt: &HostRuntime, said: &Said<'_>, push: u64) -> Result<bool, Fail> {
    let words = words_of(rt, said.call.0)?;
    let (mut first, mut second) = (
        failing(rt, said.call.1, None)?,
        failing(rt, said.call.2, None)?,
    );
    let mut pushes = Vec::new(rt.alloc());
    pushes.extend(said.out_fails.then_some(0))?;
    let mut out = MemorySink::new(rt.alloc(), 3000, 200, pushes)?;
    let mut err = MemorySink::new(rt.alloc(), 100, 5, [push].to_vec(rt.alloc())?)?;
    let status = tool(
        rt.alloc(),
        &words,
        &mut first,
        &mut second,
        &mut out,
        &mut err,
    );
    must(status == said.status, "the status of the outcome")?;
    must(
        said.line.starts_with(err.bytes()),
        "a beginning of the line",
    )?;
    Ok(err.bytes().len() < said.line.len())
}

/// How many pushes of `err` can fail.
fn failing_lines(rt: &HostRuntime, said: &Said<'_>) -> Result<u64, Fail> {
    for push in 0..MANY {
        if !line_fails(rt, said, push)? {
            return Ok(push);
        }
    }
    Ok(MANY)
}

#[test]
fn each_push_of_the_line_that_fails(rt: HostRuntime) -> Result<(), Fail> {
    let none: Call<'_> = (&[], "", "");
    let empty: Call<'_> = (&["run", "T", "M"], "", "");
    let usage = refused(none, Status::Usage, b"ERROR 2 usage\n");
    let table = refused(empty, Status::TableRefused, b"ERROR 3 table line 1 Ended\n");
    assert_eq!(rt; failing_lines(&rt, &usage)?, 3);
    assert_eq!(rt; failing_lines(&rt, &table)?, 6);
    for call in CALLS {
        assert_eq!(rt; failing_lines(&rt, &answered(call, false))?, 0);
        assert_eq!(rt; failing_lines(&rt, &answered(call, true))?, 3);
    }
    Ok(())
}
