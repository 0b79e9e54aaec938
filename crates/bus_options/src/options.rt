//! The options that were given.
ghost use Rattle.std.specs.Prelude.{◌≡◌};
ghost use Rattle.bus_options.specs.Options as definition;

use crate::setting::{EdgeUnit, Setting};
use std::mem::replace;

/// The options that were given: lengths are in nanoseconds, clocks in millionths.
#[derive(Clone, Copy, Debug, PartialEq, Eq)]
pub struct Options {
    /// `--delay`
    pub delay: Option<u64>,
    /// `--jitter`
    pub jitter: Option<u64>,
    /// `--clocks`
    pub clocks: Option<u64>,
    /// `--from`
    pub from: Option<u64>,
    /// `--to`
    pub to: Option<u64>,
    /// Whether `--order free` was given.
    pub free_order: bool,
    /// Whether an `--age` was given.
    pub aged: bool,
    /// `--unit`
    pub unit: Option<EdgeUnit>,
    /// Whether `--json` was given.
    pub json: bool,
}

impl Options {
    /// No option.
    pub const NONE: Options = Options {
        delay: None,
        jitter: None,
        clocks: None,
        from: None,
        to: None,
        free_order: false,
        aged: false,
        unit: None,
        json: false,
    };

    /// These options with another one; None where it was given already. An age may be given again.
    pub fn with(self, setting: Setting) -> Option<Options>
        ensures { result ≡ definition.with self setting }
    {
        let mut options = self;
        let given = match setting {
            Setting::Delay(delay) => options.delay.replace(delay).is_some(),
            Setting::Jitter(jitter) => options.jitter.replace(jitter).is_some(),
            Setting::Clocks(clocks) => options.clocks.replace(clocks).is_some(),
            Setting::From(from) => options.from.replace(from).is_some(),
            Setting::To(to) => options.to.replace(to).is_some(),
            Setting::FreeOrder => replace(&mut options.free_order, true),
            Setting::Age(_) => {
                options.aged = true;
                false
            }
            Setting::Unit(unit) => options.unit.replace(unit).is_some(),
            Setting::Json => replace(&mut options.json, true),
        };
        if given { None } else { Some(options) }
    }
}
