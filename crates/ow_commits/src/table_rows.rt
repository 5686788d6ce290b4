// What is committed of a change of the rows.
ghost use Rattle.std.specs.Prelude.{◌≡◌, ◌+◌, ◌++◌, IfOk, OnOk};
ghost use Rattle.std.specs.Option.{option_copied};
ghost use Rattle.ow_commits.specs.Commits.{row_changes};
ghost use Rattle.ow_commits.specs.Keeping.{bytes_less, bytes_more, old_bytes};

use crate::gathered::{Gathered, row_bytes};
use ow_entity::Row;
use ow_row_text::{entity_key, entity_row};
use ow_tables::{Ready, is_builtin};
use ow_value::NoMemory;
use std::alloc::Global;

/// The change of the rows is made, over the row of its kind and name.
pub(crate) fn change(
    alloc: Global,
    gathered: &mut Gathered,
    old: Option<&Row>,
    ready: &Ready,
) -> Result<(), NoMemory>
    ensures changes { OnOk result (gathered.new.changes.items ≡ gathered.old.changes.items ++ row_changes ready.now) }
    ensures bytes { OnOk result (gathered.new.bytes + bytes_less ready.now (option_copied old.entry) ≡ gathered.old.bytes + bytes_more ready.now) }
{
    let row = ready.row();
    if is_builtin(row) {
        return Ok(());
    }
    let less = old_bytes(alloc, old)?;
    if ready.removes() {
        let key = entity_key(alloc, row)?;
        gathered.take_out(key, less)
    } else {
        let put = entity_row(alloc, row)?;
        gathered.put(put, less)?;
        Ok(())
    }
}

// How many bytes the row of an entity has, where there is one.
fn old_bytes(alloc: Global, old: Option<&Row>) -> Result<u64, NoMemory>
    ensures { IfOk result (λ n. n ≡ old_bytes (option_copied old.entry)) }
{
    match old {
        None => Ok(0),
        Some(row) => {
            let row = entity_row(alloc, row)?;
            row_bytes(&row)
        }
    }
}
