// Whether a row is what another one was, whatever their versions.
ghost use Rattle.std.specs.Prelude.{◌≡◌, IfOk};
ghost use Rattle.ow_row_text.specs.Unchanged.{is_unchanged};

use crate::rows::entity_row;
use ow_entity::{Row, with_version};
use ow_value::NoMemory;
use std::alloc::Global;

/// Whether the new row differs from the old one in its version alone: with the version of the new row, the old one is written as the
/// new one is.
pub fn is_unchanged(alloc: Global, old: &Row, new: &Row) -> Result<bool, NoMemory>
    ensures { IfOk result (λ b. b ≡ is_unchanged old.now new.now) }
{
    let raised = with_version(alloc, old, new.version())?;
    let before = entity_row(alloc, &raised)?;
    let after = entity_row(alloc, new)?;
    Ok(before.1.as_str() == after.1.as_str())
}
