//! What a program tells of itself: `--help` and `--version`, each alone as the only word.
ghost use Rattle.std.specs.Prelude.{◌≡◌, ◌≢◌};
ghost use Rattle.bus_command.specs.About as about;
ghost use Rattle.bus_command.specs.About.{EndsTelling};
ghost use Rattle.bus_command.specs.declared.outcome.Outcome.TheVariants.{NoMemory};

use crate::outcome::Outcome;
use crate::refusal::Refusal;
use crate::writing::after_writing;
use bus_outer::{Sink, write_all};

/// What a program is asked to tell of itself.
#[derive(Clone, Copy, Debug, PartialEq, Eq)]
pub enum About {
    /// `--help`: its commands.
    Help,
    /// `--version`: its version, and those of the formats that it knows.
    Version,
}

/// What a word asks a program to tell of itself, where it is the only word; None where it asks for nothing of the kind.
pub fn about_of(word: &str) -> Option<About>
    ensures { result ≡ about.about_of word.now }
{
    if word == "--help" {
        Some(About::Help)
    } else if word == "--version" {
        Some(About::Version)
    } else {
        None
    }
}

/// Writes what a program tells of itself. It pulls no source and takes no memory.
pub fn tell<R: Refusal, K: Sink>(told: &[u8], out: &mut K) -> Outcome<R>
    ensures ends { EndsTelling ⟦<K as Sink>⟧ told.now out.old out.new result }
    ensures room { result ≢ NoMemory }
{
    after_writing(write_all(out, told), Outcome::Done)
}
