//! Which options a command takes.
ghost use Rattle.std.specs.Prelude.{◌≡◌};
ghost use Rattle.bus_options.specs.Taken as definition;

use crate::options::Options;

/// Which options a command takes.
#[derive(Clone, Copy, Debug, PartialEq, Eq)]
pub struct OptionSet {
    /// `--delay`
    pub delay: bool,
    /// `--jitter`, `--clocks`
    pub exactness: bool,
    /// `--from`, `--to`
    pub window: bool,
    /// `--order`, `--age`
    pub design: bool,
    /// `--unit`
    pub unit: bool,
    /// `--json`
    pub json: bool,
}

/// Whether an option isn't given, or is taken.
fn allows(given: bool, taken: bool) -> bool
    ensures { result ≡ definition.allows given taken }
{
    !given || taken
}

impl OptionSet {
    /// No option.
    pub const NONE: OptionSet = OptionSet {
        delay: false,
        exactness: false,
        window: false,
        design: false,
        unit: false,
        json: false,
    };

    /// `--delay` alone.
    pub const DELAY: OptionSet = OptionSet {
        delay: true,
        ..OptionSet::NONE
    };

    /// Bounds.
    pub const BOUNDS: OptionSet = OptionSet {
        exactness: true,
        ..OptionSet::DELAY
    };

    /// A window.
    pub const WINDOW: OptionSet = OptionSet {
        window: true,
        ..OptionSet::NONE
    };

    /// Bounds, and a window.
    pub const BOUNDS_AND_WINDOW: OptionSet = OptionSet {
        window: true,
        ..OptionSet::BOUNDS
    };

    /// Bounds, and what a table is made by.
    pub const DESIGN: OptionSet = OptionSet {
        design: true,
        ..OptionSet::BOUNDS
    };

    /// Bounds, and the unit of edges.
    pub const EDGES: OptionSet = OptionSet {
        unit: true,
        ..OptionSet::BOUNDS
    };

    /// `--json` alone.
    pub const JSON: OptionSet = OptionSet {
        json: true,
        ..OptionSet::NONE
    };

    /// Bounds, and `--json`.
    pub const BOUNDS_AND_JSON: OptionSet = OptionSet {
        json: true,
        ..OptionSet::BOUNDS
    };

    /// Whether each option that was given is one of these.
    pub fn takes(self, options: &Options) -> bool
        ensures { result ≡ definition.takes self options.now }
    {
        let exactness = options.jitter.is_some() || options.clocks.is_some();
        let window = options.from.is_some() || options.to.is_some();
        let design = options.free_order || options.aged;
        allows(options.delay.is_some(), self.delay)
            && allows(exactness, self.exactness)
            && allows(window, self.window)
            && allows(design, self.design)
            && allows(options.unit.is_some(), self.unit)
            && allows(options.json, self.json)
    }
}
