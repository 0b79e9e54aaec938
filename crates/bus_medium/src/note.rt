//! Adds to a list what was found.
ghost use Rattle.std.specs.Prelude.{◌≡◌, ◌++◌, ◌∷◌, [], MatchOption, OnOk};

use std::alloc::AllocError;

/// Adds what was found, if anything was.
pub fn note<T: Drop>(list: &mut Vec<T>, found: Option<T>) -> Result<(), AllocError>
    ensures { OnOk result (MatchOption found (list.new.items ≡ list.old.items) (λ x. list.new.items ≡ list.old.items ++ x ∷ [])) }
{
    if let Some(item) = found {
        list.push(item)?;
    }
    Ok(())
}
