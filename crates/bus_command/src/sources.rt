//! The files that the words of a command name, as sources.
ghost use Rattle.std.specs.Prelude.{◌≡◌, slice_get, IfOk, IfErr};
ghost use Rattle.bus_command.specs.Files.{IsFileOf};
ghost use Rattle.bus_outer.specs.Edge.{file_of};
ghost use Rattle.bus_command.specs.Words.{words_of};

use crate::status::Status;
use bus_outer::FileSource;
use std::rt::Files;

/// The files of a command.
#[derive(Drop)]
pub struct FileSources<'a, R: Files> {
    /// The file of the word behind the command.
    pub first: FileSource<'a, R>,
    /// The file of the word after that.
    pub second: FileSource<'a, R>,
}

/// The file that the word at a place names, or an empty source where there is no such word.
///
/// # Errors
///
/// `NoMemory`, where there is none for the path.
fn source<'a, R: Files>(
    rt: &'a R,
    words: &[String],
    place: usize,
) -> Result<FileSource<'a, R>, Status>
    ensures named { IfOk result (λ source. IsFileOf (slice_get (words_of words.now) place) (file_of source)) }
    ensures memory { IfErr result (λ status. status ≡ Status.NoMemory) }
{
    let Some(word) = words.get(place) else {
        return Ok(FileSource::new(rt, None));
    };
    match word.clone() {
        Ok(path) => Ok(FileSource::new(rt, Some(path))),
        Err(_) => Err(Status::NoMemory),
    }
}

/// The files that the two words behind the command name. None is opened.
///
/// # Errors
///
/// `NoMemory`, where there is none for a path.
pub fn sources_of<'a, R: Files>(rt: &'a R, words: &[String]) -> Result<FileSources<'a, R>, Status>
    ensures first { IfOk result (λ sources. IsFileOf (slice_get (words_of words.now) 1) (file_of sources.first)) }
    ensures second { IfOk result (λ sources. IsFileOf (slice_get (words_of words.now) 2) (file_of sources.second)) }
    ensures memory { IfErr result (λ status. status ≡ Status.NoMemory) }
{
    Ok(FileSources {
        first: source(rt, words, 1)?,
        second: source(rt, words, 2)?,
    })
}
