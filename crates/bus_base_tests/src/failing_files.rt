//! Files and a writer that fail where a test asks for it.
use std::alloc::Allocator;
use std::fs::{Metadata, OpenFile, OpenOptions};
use std::io;
use std::io::{Read, Seek, SeekFrom, Write};
use std::rt::Files;

/// Files that can only be opened. Each is a `FailingFile`.
#[derive(Drop)]
pub(crate) struct FailingFiles;

/// A file that reads `ab`, fails once, reads `ab` once more, and has ended.
#[derive(Drop)]
pub(crate) struct FailingFile(u8);

/// What all else of these files answers.
fn unsupported() -> io::Error {
    io::Error::from(io::ErrorKind::Unsupported)
}

impl Read for FailingFile {
    fn read(&mut self, buf: &mut [u8]) -> io::Result<usize> {
        let turn = self.0;
        self.0 = turn.saturating_add(1);
        if turn == 1 {
            return Err(io::Error::from(io::ErrorKind::TimedOut));
        }
        if turn > 2 || buf.len() < 2 {
            return Ok(0);
        }
        buf[..2].copy_from_slice(b"ab");
        Ok(2)
    }
}

impl Write for FailingFile {
    fn write(&mut self, _buf: &[u8]) -> io::Result<usize> {
        Err(unsupported())
    }

    fn flush(&mut self) -> io::Result<()> {
        Err(unsupported())
    }
}

impl Seek for FailingFile {
    fn seek(&mut self, _pos: SeekFrom) -> io::Result<u64> {
        Err(unsupported())
    }
}

impl OpenFile for FailingFile {
    fn metadata(&self) -> io::Result<Metadata> {
        Err(unsupported())
    }

    fn set_len(&self, _size: u64) -> io::Result<()> {
        Err(unsupported())
    }

    fn sync_all(&self) -> io::Result<()> {
        Err(unsupported())
    }

    fn sync_data(&self) -> io::Result<()> {
        Err(unsupported())
    }
}

impl Files for FailingFiles {
    type File = FailingFile;

    type Dir = FailingFile;

    fn open_file(&self, _how: &OpenOptions, _path: &str) -> io::Result<FailingFile> {
        Ok(FailingFile(0))
    }

    fn open_dir(&self, _path: &str) -> io::Result<FailingFile> {
        Err(unsupported())
    }

    fn metadata(&self, _path: &str) -> io::Result<Metadata> {
        Err(unsupported())
    }

    fn symlink_metadata(&self, _path: &str) -> io::Result<Metadata> {
        Err(unsupported())
    }

    fn copy(&self, _from: &str, _to: &str) -> io::Result<u64> {
        Err(unsupported())
    }

    fn rename(&self, _from: &str, _to: &str) -> io::Result<()> {
        Err(unsupported())
    }

    fn remove_file(&self, _path: &str) -> io::Result<()> {
        Err(unsupported())
    }

    fn create_dir(&self, _path: &str) -> io::Result<()> {
        Err(unsupported())
    }

    fn remove_dir(&self, _path: &str) -> io::Result<()> {
        Err(unsupported())
    }

    fn remove_dir_all<B: Allocator>(&self, _alloc: B, _path: &str) -> io::Result<()> {
        Err(unsupported())
    }
}

/// A writer whose calls with these numbers, from 0, fail: writes, and flushes.
#[derive(Drop)]
pub(crate) struct FailingWriter {
    write: u8,
    flush: u8,
    failing_write: u8,
    failing_flush: u8,
}

impl FailingWriter {
    pub(crate) fn new(failing_write: u8, failing_flush: u8) -> FailingWriter {
        FailingWriter {
            write: 0,
            flush: 0,
            failing_write,
            failing_flush,
        }
    }
}

impl Write for FailingWriter {
    fn write(&mut self, buf: &[u8]) -> io::Result<usize> {
        let turn = self.write;
        self.write = turn.saturating_add(1);
        if turn == self.failing_write {
            return Err(io::Error::from(io::ErrorKind::TimedOut));
        }
        Ok(buf.len())
    }

    fn flush(&mut self) -> io::Result<()> {
        let turn = self.flush;
        self.flush = turn.saturating_add(1);
        if turn == self.failing_flush {
            return Err(io::Error::from(io::ErrorKind::TimedOut));
        }
        Ok(())
    }
}
