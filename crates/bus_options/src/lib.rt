//! The options of a command line: `--delay 600ns --jitter=100ns`, in any order, behind the plain words.
//!
//! [`line_of`] parts the words of a command line: the plain words up to the first that begins with `--`, and the options behind them. An
//! option is `--NAME VALUE` or `--NAME=VALUE`; `--json` has no value. `specs/Options` says what the words write; of the options
//! [`Options`] keeps the values, except those of `--age`, of which there may be many: [`ages_of`] takes them from the words.
//!
//! [`bounds_of`] and [`near_bounds_of`] are the bounds that options ask for. Which options a command takes is an [`OptionSet`], a line for
//! each in `taken`.
#![tactic(auto)]

mod ages;
mod bounding;
mod key;
mod line;
mod options;
mod reading;
mod setting;
mod taken;

pub use ages::ages_of;
pub use bounding::{PastLimit, bounds_of, near_bounds_of};
pub use key::Key;
pub use line::{Line, OptionError, line_of};
pub use options::Options;
pub use setting::{Age, EdgeUnit, OptionReason, Setting};
pub use taken::OptionSet;
