//! What a time line shows.

use bus_load::Stretch;
use bus_regime::TableVerdict;
use bus_shapes::{Sent, Told};
use bus_table::Table;
use bus_trace::Trace;

/// What a time line shows: a trace on a table, and what is known of both.
#[derive(Drop)]
pub(crate) struct Subject<'a> {
    /// The verdict on the table.
    pub verdict: &'a TableVerdict,
    /// What is told of the trace.
    pub told: &'a Told,
    /// The table.
    pub table: &'a Table,
    /// The trace.
    pub trace: &'a Trace,
    /// The carrier of the trace.
    pub carrier: &'a [Stretch],
    /// What is told of each of its transmissions.
    pub sents: &'a [Sent],
}
