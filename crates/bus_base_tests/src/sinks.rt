//! What sinks do, and texts that are written to them, that no clause says.
ghost use Rattle.std.specs.Prelude.{◌≤◌};

use bus_outer::{
    CountSink, MemorySink, Push, Sink, SteadySource, TextBuffer, WriteFault, read_whole, write_all,
};
use std::alloc::{AllocError, Global};
use std::test::Fail;

/// A sink with room for so many bytes, which takes so many of a push, and whose listed pushes fail.
fn sink(alloc: Global, room: usize, piece: usize, failing: &[u64]) -> Result<MemorySink, AllocError>
    requires { 1 ≤ piece }
{
    MemorySink::new(alloc, room, piece, Vec::from_slice(alloc, failing)?)
}

const PUSHES: [(&[u8], Push); 4] = [
    (b"abcd", Push::Took(3)),
    (b"d", Push::Failed),
    (b"defg", Push::Took(2)),
    (b"f", Push::Failed),
];

#[test]
fn a_sink_takes_pieces_and_fails_where_listed_and_full(rt: HostRuntime) -> Result<(), Fail> {
    let mut sink = sink(rt.alloc(), 5, 3, &[1])?;
    for (bytes, want) in &PUSHES {
        assert!(rt; sink.push(bytes) == *want);
    }
    assert!(rt; sink.bytes() == b"abcde".as_slice());
    Ok(())
}

/// Which push fails, the answer, and the bytes that were taken.
const WRITTEN: [(&[u64], Result<(), WriteFault>, &[u8]); 2] = [
    (&[], Ok(()), b"some bytes"),
    (&[2], Err(WriteFault), b"some b"),
];

#[test]
fn bytes_are_written_whole_or_in_front(rt: HostRuntime) -> Result<(), Fail> {
    for (failing, answer, bytes) in &WRITTEN {
        let mut sink = sink(rt.alloc(), 20, 3, failing)?;
        assert!(rt; write_all(&mut sink, b"some bytes") == *answer);
        assert!(rt; sink.bytes() == *bytes);
    }
    Ok(())
}

#[test]
fn a_steady_source_gives_all_and_a_count_sink_counts_it(rt: HostRuntime) -> Result<(), Fail> {
    let mut source = SteadySource::new(vec![in rt.alloc(); 7u8; 10000]?, 3000);
    let bytes = read_whole(rt.alloc(), &mut source, 10000)
        .ok()
        .ok_or("refused")?;
    let mut sink = CountSink::new();
    assert!(rt; write_all(&mut sink, &bytes) == Ok(()));
    assert!(rt; write_all(&mut sink, b"more") == Ok(()));
    assert!(rt; sink.count() == 10004);
    Ok(())
}

/// A line `HOLD n 2` for each n below 2000, in a buffer before a sink.
fn write_holds(sink: &mut MemorySink) -> Result<(), WriteFault> {
    let mut text = TextBuffer::new();
    for n in 0..2000u64 {
        text.put(sink, b"HOLD ");
        text.put_number(sink, n);
        text.put_byte(sink, b' ');
        text.put_number(sink, 2u8);
        text.put_byte(sink, b'\n');
    }
    text.finish(sink)
}

/// 10 one-digit numbers, 90 of two digits, 900 of three and 1000 of four, and 8 other bytes a line.
const LENGTH: usize = 10 + 2 * 90 + 3 * 900 + 4 * 1000 + 8 * 2000;

/// It needs six pushes, numbers 0 to 5.
#[test]
fn a_long_text_comes_in_few_pushes(rt: HostRuntime) -> Result<(), Fail> {
    let mut sink = sink(rt.alloc(), LENGTH, 5000, &[6])?;
    assert!(rt; write_holds(&mut sink) == Ok(()));
    assert!(rt; sink.bytes().len() == LENGTH);
    assert!(rt; sink.bytes().starts_with(b"HOLD 0 2\nHOLD 1 2\n"));
    assert!(rt; sink.bytes().ends_with(b"HOLD 1998 2\nHOLD 1999 2\n"));
    Ok(())
}

#[test]
fn a_text_that_fails_in_mid_stream_has_a_front(rt: HostRuntime) -> Result<(), Fail> {
    let mut whole = sink(rt.alloc(), 30000, 30000, &[])?;
    assert!(rt; write_holds(&mut whole) == Ok(()));
    let mut front = sink(rt.alloc(), 30000, 3000, &[3])?;
    assert!(rt; write_holds(&mut front) == Err(WriteFault));
    assert!(rt; !front.bytes().is_empty() && front.bytes().len() < whole.bytes().len());
    assert!(rt; whole.bytes().starts_with(front.bytes()));
    Ok(())
}

#[test]
fn numbers_are_put_in_digits(rt: HostRuntime) -> Result<(), Fail> {
    let mut sink = sink(rt.alloc(), 100, 100, &[])?;
    let mut text = TextBuffer::new();
    text.put_number(&mut sink, -60i64);
    text.put_byte(&mut sink, b' ');
    text.put_number(&mut sink, 340282366920938463463374607431768211455u128);
    assert!(rt; text.finish(&mut sink) == Ok(()));
    assert!(rt; sink.bytes() == b"-60 340282366920938463463374607431768211455".as_slice());
    Ok(())
}
