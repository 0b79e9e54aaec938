//! A wave that is read, a trace that is written, and traces of which there is no wave.
use crate::lines::{TRACE, read, table, trace_of, with_line};
use bus_outer::MemorySink;
use bus_trace::write_trace;
use bus_wave::{WaveFault, spaced, write_wave};
use std::test::Fail;

#[test]
fn a_wave_is_read_as_its_trace(rt: HostRuntime) -> Result<(), Fail> {
    let text = with_line(rt.alloc(), 9, b"")?;
    let trace = read(rt.alloc(), &text)??;
    let mut sink = MemorySink::new(rt.alloc(), 400, 400, Vec::new(rt.alloc()))?;
    assert!(rt; write_trace(&trace, &mut sink).is_ok());
    assert!(rt; sink.bytes() == TRACE);
    Ok(())
}

#[test]
fn a_trace_is_written_as_its_wave(rt: HostRuntime) -> Result<(), Fail> {
    let trace = trace_of(rt.alloc(), TRACE)?;
    if spaced(&table(rt.alloc())?, &trace).is_err() {
        return Err(Fail::new("the trace isn't spaced"));
    }
    let text = with_line(rt.alloc(), 9, b"")?;
    let mut sink = MemorySink::new(rt.alloc(), 400, 400, Vec::new(rt.alloc()))?;
    assert!(rt; write_wave(&trace, &mut sink).is_ok());
    assert!(rt; sink.bytes() == text.as_slice());
    Ok(())
}

#[test]
fn the_first_fault_of_a_trace(rt: HostRuntime) -> Result<(), Fail> {
    let cases: [(&[u8], WaveFault); 4] = [
        (
            b"TRACE 1\nHORIZON 150\nTX 20 3\nWS L0A111 D00001 D00010\nEND\n",
            WaveFault::Stranger(0),
        ),
        (
            b"TRACE 1\nHORIZON 150\nTX 20 1\nWS L0A111 D00001\nEND\n",
            WaveFault::Misfit(0),
        ),
        (
            b"TRACE 1\nHORIZON 150\nTX 20 1\nWS L0A111 D00001 D00010\nTX 87 2\nWS L0B210 D00FF1\nEND\n",
            WaveFault::Close(1),
        ),
        (
            b"TRACE 1\nHORIZON 127\nTX 20 1\nWS L0A111 D00001 D00010\nTX 88 2\nWS L0B210 D00FF1\nEND\n",
            WaveFault::Cut(1),
        ),
    ];
    for (text, fault) in cases {
        let trace = trace_of(rt.alloc(), text)?;
        assert!(rt; spaced(&table(rt.alloc())?, &trace) == Err(fault));
    }
    Ok(())
}
