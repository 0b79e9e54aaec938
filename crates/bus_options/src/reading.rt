//! Options, as far as they are read.
ghost use Rattle.std.specs.Prelude.{◌≡◌};
ghost use Rattle.bus_options.specs.Options as definition;

use crate::key::{Key, key_of};
use crate::options::Options;
use crate::setting::{OptionReason, Setting, setting_of};

/// Options as far as they are read, and the one whose value is in the next word.
#[derive(Clone, Copy, Debug, PartialEq, Eq)]
pub(crate) struct Reading {
    /// Those that are read.
    pub options: Options,
    /// The one whose value comes next.
    pub waiting: Option<Key>,
}

/// Before the first word.
pub(crate) const START: Reading = Reading {
    options: Options::NONE,
    waiting: None,
};

/// Another option behind these, which hasn't been given yet.
fn with(options: Options, setting: Setting) -> Result<Reading, OptionReason>
    ensures { result ≡ definition.added options setting }
{
    match options.with(setting) {
        Some(options) => Ok(Reading {
            options,
            waiting: None,
        }),
        None => Err(OptionReason::Twice),
    }
}

/// Another option with its value behind these.
fn set(options: Options, key: Key, value: &str) -> Result<Reading, OptionReason>
    ensures { result ≡ definition.set options key value.now }
{
    match setting_of(key, value) {
        Ok(setting) => with(options, setting),
        Err(why) => Err(why),
    }
}

/// Behind a word that has an option's name, and its value behind `=`.
fn joined(options: Options, key: Option<Key>, value: &str) -> Result<Reading, OptionReason>
    ensures { result ≡ definition.joined options key value.now }
{
    match key {
        None => Err(OptionReason::Unknown),
        Some(key) if key.is_flag() => Err(OptionReason::HasValue),
        Some(key) => set(options, key, value),
    }
}

/// Behind a word that is an option's name.
fn alone(options: Options, key: Option<Key>) -> Result<Reading, OptionReason>
    ensures { result ≡ definition.alone options key }
{
    match key {
        None => Err(OptionReason::Unknown),
        Some(key) if key.is_flag() => set(options, key, ""),
        Some(key) => Ok(Reading {
            options,
            waiting: Some(key),
        }),
    }
}

/// Behind a word with which an option begins.
fn begun(options: Options, word: &str) -> Result<Reading, OptionReason>
    ensures { result ≡ definition.begun options word.now }
{
    match word.split_once('=') {
        Some((name, value)) => joined(options, key_of(name), value),
        None => alone(options, key_of(word)),
    }
}

impl Reading {
    /// Behind another word.
    pub fn with(self, word: &str) -> Result<Reading, OptionReason>
        ensures { result ≡ definition.step self word.now }
    {
        match self.waiting {
            None => begun(self.options, word),
            Some(key) => set(self.options, key, word),
        }
    }
}
