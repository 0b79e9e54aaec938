//! Of which bus a stream tells.
use bus_bounds::Bounds;
use bus_table::Table;
use std::alloc::Global;

/// Of which bus a stream tells.
#[derive(Clone, Copy)]
pub struct Setting<'t> {
    /// Where memory comes from.
    pub alloc: Global,
    /// The table of the bus.
    pub table: &'t Table,
    /// How exact it is, in bit times.
    pub bounds: Bounds,
}
