//! What the rows of a time line are drawn from.

use crate::receivers::Receivers;
use bus_pen::Scale;
use bus_strings::Transmission;

/// What is the same for all rows of a time line.
#[derive(Drop)]
pub(crate) struct Canvas<'a> {
    /// Where moments are drawn.
    pub scale: Scale,
    /// Who takes words of wordstrings.
    pub receivers: &'a Receivers<'a>,
    /// The transmissions of the trace.
    pub list: &'a [Transmission],
}
