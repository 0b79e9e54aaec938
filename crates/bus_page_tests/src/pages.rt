//! Pages of worked tables. What is wanted was reckoned apart from this program, the checksums by another one.
use bus_outer::MemorySink;
use bus_page::{find, write_page};
use bus_table::read_table;
use std::process::Abort;
use std::test::Fail;

const FIVE: &[u8] = b"TABLE 1
MODE aperiodic
TI 11000
SG 400
SENDER 3 TG 20
SEND 001 0 0 0
TAKE 005 * 0 256
SENDER 17 TG 60
SEND 002 0 1 3
SEND 003 0 1 3
SENDER 44 TG 140
SEND 004 0 40 60
SENDER 90 TG 100
SEND 005 1 256 256
SEND 006 1 200 256
SENDER 128 TG 256
SEND 007 1 10 20
";

const PERIODIC: &[u8] =
    b"# The same five terminals in periodic mode: docs/PLAN.md says what it bears on one clock, and what it doesn't on real ones.
TABLE 1
MODE periodic
TI 4000
SG 300
SENDER 1 TG 10 AT 0
SEND 101 1 8 8
SENDER 2 TG 15 AT 200
SEND 102 1 16 16
SENDER 3 TG 20 AT 570
SEND 103 1 4 12
TAKE 101 * 0 8
TAKE 102 * 0 16
SENDER 4 TG 25 AT 860
SEND 104 1 6 6
TAKE 103 * 0 12
SENDER 5 TG 30 AT 1040
SEND 105 1 2 4
TAKE 101 * 0 2
TAKE 104 * 0 6
";

const REFUSED: &[u8] =
    b"TABLE 1\nMODE periodic\nTI 1029\nSG 300\nSENDER 1 TG 20 AT 0\nSEND 0A1 1 2 2\nSENDER 2 TG 30 AT 90\nSEND 0B2 1 30 30\n";

/// Whether these bytes stand somewhere in others.
fn has(bytes: &[u8], part: &[u8]) -> bool {
    if part.is_empty() {
        return true;
    }
    bytes.windows(part.len()).any(|window| window == part)
}

/// Checks that the page of a table has each of these parts, and none of the lines of `explain` on each sender.
fn has_parts(rt: &(impl Abort + AllocGlobal), text: &[u8], parts: &[&[u8]]) -> Result<(), Fail> {
    let alloc = rt.alloc();
    let table = read_table(alloc, text)?;
    let findings = find(alloc, &table)?;
    let mut sink = MemorySink::new(alloc, 100_000, 4096, Vec::new(alloc))?;
    assert!(rt; write_page(b"tester 1", text, &table, &None, &findings, &mut sink).is_ok());
    for part in parts {
        assert!(rt; has(sink.bytes(), part));
    }
    assert!(rt; !has(sink.bytes(), b"The senders speak"));
    assert!(rt; !has(sink.bytes(), b"terminal gap, TG    "));
    Ok(())
}

#[test]
fn an_accepted_aperiodic_table(rt: HostRuntime) -> Result<(), Fail> {
    has_parts(
        &rt,
        FIVE,
        &[
            b"<h1>The table is accepted</h1>",
            b"<dd>11284 bit times (5642 \xc2\xb5s) to 13084 bit times (6542 \xc2\xb5s)</dd>",
            b"<dd>284 bit times (142 \xc2\xb5s)</dd>",
            b"<dd>92.5 %</dd>",
            b"<dd>19 bit times (9.5 \xc2\xb5s)</dd>",
            b"T90 9164",
            b"T90: 10284 bit times (5142 \xc2\xb5s), from 764 to 11048",
            b"T128: 420 bit times (210 \xc2\xb5s), from 12664 to 13084",
            b"23368 bit times (11684 \xc2\xb5s)",
            b"to its next one, at most 13084 bit times (6542 \xc2\xb5s). The second",
            b"<pre class=\"said\">The table is accepted: ",
            b"each as long as it may be; the rest is gaps.\nThe tolerance is 19 bit times (9.5 \xc2\xb5s): ",
            b"tester 1",
            b"50FCE854",
        ],
    )
}

#[test]
fn an_accepted_periodic_table(rt: HostRuntime) -> Result<(), Fail> {
    has_parts(
        &rt,
        PERIODIC,
        &[
            b"<p><code>ACCEPT periodic 4000 4000</code></p>",
            b"T2: 340 bit times (170 \xc2\xb5s), from 200 to 540",
            b"gap before T1: 2860 bit times (1430 \xc2\xb5s); it synchronizes all",
            b"gap before T2: 20 bit times (10 \xc2\xb5s); it synchronizes nobody",
            b"every delay",
            b"to its next one, at most 4000 bit times (2000 \xc2\xb5s). The second",
            b"each as long as it may be; the rest is gaps.\nThe tolerance is 5 bit times (2.5 \xc2\xb5s): ",
            b"<dt>level, within 0 ns of delay, 0 ns of jitter, and clocks 50 millionths off</dt><dd>none: nothing is told</dd>",
            b"0C5C2057",
        ],
    )
}

#[test]
fn a_refused_table(rt: HostRuntime) -> Result<(), Fail> {
    has_parts(
        &rt,
        REFUSED,
        &[
            b"<h1 class=\"refused\">The table is refused</h1>",
            b"<p><code>REFUSE no-sync 1 319 320</code></p>",
            b"PLAN 1030",
            b"1C9E9A04",
        ],
    )
}
