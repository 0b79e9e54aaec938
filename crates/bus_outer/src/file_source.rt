//! A file as a source: the trusted edge, which tells no content.
ghost use Rattle.std.specs.Prelude.{◌≡◌, ◌<◌, ◌≤◌, MatchOption, None, length, take};
ghost use Rattle.bus_outer.specs.Faults.{one_more};
ghost use Rattle.bus_outer.specs.Ahead.{left_ahead};
ghost use Rattle.bus_outer.specs.Edge.{ReadsFile};
ghost use Rattle.bus_outer.specs.Sources.{Taken, Pulls, StopsAtFeed, CountsPull};

use crate::read_ahead::ReadAhead;
use crate::{Pull, Source};
use std::fs;
use std::io::Read;
use std::rt::Files;

/// A file by its path, opened at the first pull. With no path it is an empty source.
///
/// It reads ahead, so that short pulls make few calls of the system, and tells no content. Its count of
/// faults rises by one where the file can't be opened or a read fails, and stays at the last value of a
/// `u64`, where `Failed` may come at any time. A pull after a failed opening tries again.
#[derive(Drop)]
pub struct FileSource<'a, R: Files> {
    rt: &'a R,
    file: NamedFile<R::File>,
    faults: u64,
}

/// How far the file has come.
#[derive(Drop)]
enum NamedFile<F> {
    None,
    Closed(String),
    Open(ReadAhead<F>),
}

impl<'a, R: Files> FileSource<'a, R> {
    ghost use Rattle.bus_outer.specs.Edge.{file_of, file_faults};

    /// The file at `path`, which isn't opened yet, or an empty source.
    pub fn new(rt: &'a R, path: Option<String>) -> FileSource<'a, R>
        ensures file { MatchOption path (file_of result ≡ NamedFile.None) (λ p. file_of result ≡ NamedFile.Closed p) }
        ensures faults { file_faults result ≡ 0 }
    {
        let file = match path {
            Some(path) => NamedFile::Closed(path),
            None => NamedFile::None,
        };
        FileSource {
            rt,
            file,
            faults: 0,
        }
    }
}

impl<'a, R: Files> Source for FileSource<'a, R> {
    ghost use Rattle.bus_outer.specs.Edge.{file_of, file_faults, waiting_of, PullsFile, ConsumesFile};

    ghost left = { λ _. None };

    ghost faults = { λ s. file_faults s };

    ghost lent = { λ s. waiting_of (file_of s) };

    /// Gives what was read ahead, or else reads the file once, after opening it where it isn't open. `End`
    /// comes only with no path, or where the open file is at its end.
    fn pull(&mut self, buf: &mut [u8]) -> Pull
        requires { 0 < length buf.old }
        ensures bytes { Pulls None None result buf.new }
        ensures counts { CountsPull (file_faults self.old) (file_faults self.new) result }
        ensures once { result ≡ Pull.Failed → file_faults self.new ≡ one_more (file_faults self.old) }
        ensures file { PullsFile R.File.remaining (file_of self.old) (file_of self.new) result buf.new }
    {
        if let NamedFile::Closed(path) = &self.file {
            match fs::open(self.rt, path.as_str()) {
                Ok(file) => self.file = NamedFile::Open(ReadAhead::new(file)),
                Err(_) => return fail(&mut self.faults),
            }
        }
        let NamedFile::Open(file) = &mut self.file else {
            return Pull::End;
        };
        pull_open(file, &mut self.faults, buf)
    }

    /// Gives what was read ahead up to the next line feed, or else reads the file as `pull` does.
    fn pull_line(&mut self, buf: &mut [u8]) -> Pull
        requires { 0 < length buf.old }
        ensures bytes { Pulls None None result buf.new }
        ensures line { StopsAtFeed result buf.new }
        ensures counts { CountsPull (file_faults self.old) (file_faults self.new) result }
        ensures once { result ≡ Pull.Failed → file_faults self.new ≡ one_more (file_faults self.old) }
        ensures file { PullsFile R.File.remaining (file_of self.old) (file_of self.new) result buf.new }
    {
        if let NamedFile::Closed(path) = &self.file {
            match fs::open(self.rt, path.as_str()) {
                Ok(file) => self.file = NamedFile::Open(ReadAhead::new(file)),
                Err(_) => return fail(&mut self.faults),
            }
        }
        let NamedFile::Open(file) = &mut self.file else {
            return Pull::End;
        };
        pull_line_open(file, &mut self.faults, buf)
    }

    /// What was read ahead of an open file.
    fn at_hand(&self) -> &[u8]
        ensures { result.now ≡ waiting_of (file_of self.now) }
    {
        match &self.file {
            NamedFile::Open(file) => file.at_hand(),
            NamedFile::None | NamedFile::Closed(_) => &[],
        }
    }

    /// Takes so many bytes of what was read ahead.
    fn consume(&mut self, count: usize)
        requires { count ≤ length (waiting_of (file_of self.old)) }
        ensures bytes { Taken None None (take count (waiting_of (file_of self.old))) }
        ensures counts { file_faults self.new ≡ file_faults self.old }
        ensures file { ConsumesFile R.File.remaining (file_of self.old) (file_of self.new) count }
    {
        if let NamedFile::Open(file) = &mut self.file {
            file.consume(count);
        }
    }
}

/// Reads an open file once, and counts a failed read.
pub(crate) fn pull_open<F: Read>(file: &mut ReadAhead<F>, faults: &mut u64, buf: &mut [u8]) -> Pull
    requires { 0 < length buf.old }
    ensures file { ReadsFile (left_ahead F.remaining file.old) (left_ahead F.remaining file.new) result buf.new }
    ensures bytes { Pulls None None result buf.new }
    ensures counts { CountsPull faults.old faults.new result }
    ensures once { result ≡ Pull.Failed → faults.new ≡ one_more faults.old }
{
    match file.read(buf) {
        Ok(0) => Pull::End,
        Ok(n) => Pull::Got(n),
        Err(_) => fail(faults),
    }
}

/// Reads an open file up to the next line feed, and counts a failed read.
pub(crate) fn pull_line_open<F: Read>(
    file: &mut ReadAhead<F>,
    faults: &mut u64,
    buf: &mut [u8],
) -> Pull
    requires { 0 < length buf.old }
    ensures file { ReadsFile (left_ahead F.remaining file.old) (left_ahead F.remaining file.new) result buf.new }
    ensures bytes { Pulls None None result buf.new }
    ensures line { StopsAtFeed result buf.new }
    ensures counts { CountsPull faults.old faults.new result }
    ensures once { result ≡ Pull.Failed → faults.new ≡ one_more faults.old }
{
    match file.read_line(buf) {
        Ok(0) => Pull::End,
        Ok(n) => Pull::Got(n),
        Err(_error) => fail(faults),
    }
}

/// Counts a fault.
fn fail(faults: &mut u64) -> Pull
    ensures failed { result ≡ Pull.Failed }
    ensures counts { CountsPull faults.old faults.new Pull.Failed }
    ensures once { faults.new ≡ one_more faults.old }
{
    *faults = faults.saturating_add(1);
    Pull::Failed
}
