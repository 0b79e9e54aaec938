//! The edge to the system: files as sources, and writers as sinks.
use crate::failing_files::{FailingFiles, FailingWriter};
use bus_outer::{
    FileSource, OutSink, Pull, Push, ReadError, Sink, Source, WriteFault, read_whole, write_all,
};
use std::alloc::{AllocError, Global};
use std::fs;
use std::io::BufWriter;
use std::process::Abort;
use std::rt::Files;
use std::test::Fail;

/// A source of `abcde` lends what was read ahead, and nothing before the first pull.
fn lends(rt: &impl Abort, source: &mut impl Source) {
    let mut buf = [0u8; 2];
    assert!(rt; source.at_hand().is_empty());
    assert!(rt; source.pull(&mut buf) == Pull::Got(2));
    assert!(rt; source.at_hand() == b"cde".as_slice());
    source.consume(2);
    assert!(rt; source.at_hand() == b"e".as_slice());
    assert!(rt; source.pull_line(&mut buf) == Pull::Got(1));
    assert!(rt; source.pull(&mut buf) == Pull::End);
}

#[test]
fn bytes_at_hand_are_taken_as_those_of_a_pull_are(rt: HostRuntime) -> Result<(), Fail> {
    fs::write(&rt, "lent", "abcde")?;
    let mut file = FileSource::new(&rt, Some(String::from_str(rt.alloc(), "lent")?));
    lends(&rt, &mut file);
    fs::remove_file(&rt, "lent")?;
    Ok(())
}

const FAILING_ONCE: [Pull; 4] = [Pull::Got(2), Pull::Failed, Pull::Got(2), Pull::End];

#[test]
fn a_read_that_fails_once_is_tried_again(rt: HostRuntime) -> Result<(), Fail> {
    let files = FailingFiles;
    let mut file = FileSource::new(&files, Some(String::from_str(rt.alloc(), "any")?));
    let mut buf = [0u8; 8];
    for want in FAILING_ONCE {
        assert!(rt; file.pull(&mut buf) == want);
    }
    Ok(())
}

/// Whether a file with a name, or none, holds just these bytes, or has a fault; `None` stands for any other answer.
fn is_read(
    files: &impl Files,
    alloc: Global,
    name: Option<&str>,
    bytes: &[u8],
) -> Result<Option<bool>, AllocError> {
    let path = match name {
        Some(name) => Some(String::from_str(alloc, name)?),
        None => None,
    };
    let mut file = FileSource::new(files, path);
    Ok(match &read_whole(alloc, &mut file, 100) {
        Ok(read) if read.as_slice() == bytes => Some(true),
        Err(ReadError::Fault) => Some(false),
        _ => None,
    })
}

/// A name, what is read, and whether it is; else there is a fault. A folder opens, and its first read fails. Without a name there is
/// nothing.
const FILES: [(Option<&str>, &[u8], bool); 5] = [
    (Some("some_file"), b"some bytes", true),
    (Some(" some_file "), b"with blanks", true),
    (Some("no_file"), b"", false),
    (Some("."), b"", false),
    (None, b"", true),
];

#[test]
fn a_file_is_read_by_exactly_its_name_and_a_missing_one_is_a_fault(
    rt: HostRuntime,
) -> Result<(), Fail> {
    fs::write(&rt, "some_file", "some bytes")?;
    fs::write(&rt, " some_file ", "with blanks")?;
    for (name, bytes, read) in &FILES {
        assert!(rt; is_read(&rt, rt.alloc(), *name, bytes)? == Some(*read));
    }
    fs::remove_file(&rt, " some_file ")?;
    assert!(rt; is_read(&rt, rt.alloc(), Some(" some_file "), b"")? == Some(false));
    fs::remove_file(&rt, "some_file")?;
    Ok(())
}

#[test]
fn a_write_or_a_flush_that_fails_once_is_a_fault(rt: HostRuntime) {
    for (failing_write, failing_flush) in [(0, 9), (9, 0)] {
        let mut sink = OutSink::new(FailingWriter::new(failing_write, failing_flush));
        assert!(rt; sink.push(b"some bytes") == Push::Failed);
        assert!(rt; sink.push(b"some bytes") == Push::Took(10));
    }
}

#[test]
fn a_writer_is_flushed(rt: HostRuntime) -> Result<(), Fail> {
    let mut sink = OutSink::new(BufWriter::new(rt.alloc(), fs::create(&rt, "written")?)?);
    assert!(rt; write_all(&mut sink, b"some bytes") == Ok(()));
    // The writer still stands, so what the file has was flushed.
    assert!(rt; is_read(&rt, rt.alloc(), Some("written"), b"some bytes")? == Some(true));
    fs::remove_file(&rt, "written")?;
    Ok(())
}

/// A file that was opened to be read takes nothing.
#[test]
fn a_failure_of_a_writer_counts(rt: HostRuntime) -> Result<(), Fail> {
    fs::write(&rt, "closed", "some bytes")?;
    let mut closed = OutSink::new(fs::open(&rt, "closed")?);
    assert!(rt; write_all(&mut closed, b"more") == Err(WriteFault));
    fs::remove_file(&rt, "closed")?;
    Ok(())
}
