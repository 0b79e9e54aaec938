//! Laws of drill tables and their items. Each is the contract of a function that does nothing.
ghost use Rattle.bus_vectors.specs.MadeLaws.{MadeTablesAreValid, MadeItemsFit, MadeItemsAreEven};

/// Every made table is valid.
pub fn made_tables_are_valid()
    ensures { MadeTablesAreValid }
{}

/// The made items are in their ranges and fit the made table.
pub fn made_items_fit()
    ensures { MadeItemsFit }
{}

/// Each sender of a made table has as many items as there are rounds.
pub fn made_items_are_even()
    ensures { MadeItemsAreEven }
{}
