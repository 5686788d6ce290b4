// Members of an object that is being made.
ghost use Rattle.std.specs.Prelude.{◌≡◌, OnOk};
ghost use Rattle.ow_value.specs.Find.{with_pair};
ghost use Rattle.ow_value.specs.View.{view};

use ow_value::{Fields, NoMemory, Str, Val, kept_beside};
use std::alloc::Global;

/// Gives the name this value.
pub(crate) fn put(
    alloc: Global,
    fields: &mut Fields,
    name: &str,
    value: Val,
) -> Result<(), NoMemory>
    ensures { OnOk result (fields.new ≡ with_pair fields.old name.now (view value)) }
{
    let (value, name) = kept_beside(value, Str::of(alloc, name))?;
    fields.set(name, value)
}
