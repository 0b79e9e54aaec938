//! What sources do that no clause says.
use bus_outer::{MemorySource, Pull, READ_LIMIT, ReadError, Source, SteadySource, read_whole};
use std::alloc::{AllocError, Global};
use std::process::Abort;
use std::test::Fail;

/// A source of these bytes in pieces of three, whose pull 1 fails.
fn failing(alloc: Global, bytes: &[u8]) -> Result<MemorySource, AllocError> {
    let failing = Vec::from_slice(alloc, &[1])?;
    Ok(MemorySource::new(Vec::from_slice(alloc, bytes)?, 3, failing))
}

/// A source gives these pieces, which together are its bytes.
fn gives(
    rt: &impl Abort,
    alloc: Global,
    source: &mut impl Source,
    pulls: &[Pull],
    bytes: &[u8],
) -> Result<(), AllocError> {
    let mut buf = [0u8; 8];
    let mut given = Vec::new(alloc);
    for want in pulls {
        let pull = source.pull(&mut buf);
        assert!(rt; pull == *want);
        if let Pull::Got(n) = pull {
            given.extend_from_slice(buf.get(..n).unwrap_or(&[]))?;
        }
    }
    assert!(rt; given.as_slice() == bytes);
    Ok(())
}

const PIECES: [Pull; 4] = [Pull::Got(3), Pull::Failed, Pull::Got(2), Pull::End];

#[test]
fn a_source_gives_pieces_and_fails_where_listed(rt: HostRuntime) -> Result<(), Fail> {
    let mut source = failing(rt.alloc(), b"abcde")?;
    gives(&rt, rt.alloc(), &mut source, &PIECES, b"abcde")?;
    Ok(())
}

const LINES: [Pull; 6] = [
    Pull::Got(3),
    Pull::Failed,
    Pull::Got(2),
    Pull::Got(1),
    Pull::Got(2),
    Pull::End,
];

#[test]
fn a_line_is_pulled_without_what_is_behind_it(rt: HostRuntime) -> Result<(), Fail> {
    let mut source = failing(rt.alloc(), b"abcd\n\nef")?;
    let mut buf = [0u8; 8];
    for want in LINES {
        assert!(rt; source.pull_line(&mut buf) == want);
    }
    Ok(())
}

#[test]
fn bytes_at_hand_are_taken(rt: HostRuntime) -> Result<(), Fail> {
    let mut steady = SteadySource::new(Vec::from_slice(rt.alloc(), b"abcde")?, 3);
    steady.consume(2);
    assert!(rt; steady.at_hand() == b"cde".as_slice());
    Ok(())
}

/// How many bytes a source has, how many are read at most, and whether they are.
const LIMITS: [(usize, usize, bool); 3] = [
    (0, 0, true),
    (10000, 10000, true),
    (10001, 10000, false),
];

/// Whether a source of so many bytes is read whole within a limit; `None` stands for any other answer.
fn is_read(alloc: Global, length: usize, limit: usize) -> Result<Option<bool>, AllocError> {
    let mut source = MemorySource::new(vec![in alloc; 7u8; length]?, 1000, Vec::new(alloc));
    Ok(
        match &read_whole(alloc, &mut source, limit.min(READ_LIMIT)) {
            Ok(bytes) if bytes.len() == length => Some(true),
            Err(ReadError::TooLarge) => Some(false),
            _ => None,
        },
    )
}

#[test]
fn a_source_is_read_whole_within_its_limit(rt: HostRuntime) -> Result<(), Fail> {
    for (length, limit, fits) in LIMITS {
        assert!(rt;
            is_read(rt.alloc(), length, limit)? == Some(fits),
            "{length} bytes"
        );
    }
    Ok(())
}

/// Three pieces are gone with the failed pull, and the rest is still there.
#[test]
fn a_failed_pull_in_mid_stream_is_a_fault(rt: HostRuntime) -> Result<(), Fail> {
    let alloc = rt.alloc();
    let failing = Vec::from_slice(alloc, &[3])?;
    let mut source = MemorySource::new(vec![in alloc; 7u8; 10000]?, 1000, failing);
    assert!(rt;
        matches!(
            &read_whole(alloc, &mut source, 20000),
            Err(ReadError::Fault)
        )
    );
    assert!(rt; matches!(&read_whole(alloc, &mut source, 20000), Ok(rest) if rest.len() == 7000));
    Ok(())
}
