// What is committed of an acceptance.
ghost use Rattle.std.specs.Prelude.{◌≡◌, ◌+◌, ◌-◌, ◌++◌, IfOk, OnOk};
ghost use Rattle.ow_row_text.specs.declared.item.Item.TheVariants as items;
ghost use Rattle.ow_commits.specs.Commits.{accept_changes};
ghost use Rattle.ow_commits.specs.Keeping.{last_bytes, open_bytes, row_bytes};

use crate::gathered::{Gathered, row_bytes};
use crate::open_bytes::OpenBytes;
use ow_records::Unrecorded;
use ow_row_text::{count_row, open_row};
use ow_value::NoMemory;
use std::alloc::Global;

/// The activation is accepted, whose id is the next of its namespace.
pub(crate) fn accept(
    alloc: Global,
    gathered: &mut Gathered,
    activation: &Unrecorded,
) -> Result<OpenBytes, NoMemory>
    ensures changes { OnOk result (gathered.new.changes.items ≡ gathered.old.changes.items ++ accept_changes activation.now) }
    ensures bytes { OnOk result (gathered.new.bytes + last_bytes activation.now.id.namespace (activation.now.id.count - 1)
        ≡ gathered.old.bytes + (row_bytes (items.Count activation.now.id.namespace activation.now.id.count) + row_bytes (items.Open activation.now))) }
    ensures opened { IfOk result (λ o. o ≡ open_bytes activation.now) }
{
    let id = activation.id;
    let less = last_bytes(alloc, id.namespace, id.count.saturating_sub(1))?;
    let counted = count_row(alloc, id.namespace, id.count)?;
    gathered.put(counted, less)?;
    let opened = open_row(alloc, activation)?;
    let bytes = gathered.put(opened, 0)?;
    Ok(OpenBytes { id, bytes })
}

// How many bytes the row of the last count of a namespace has.
pub(crate) fn last_bytes(alloc: Global, namespace: u64, last: u64) -> Result<u64, NoMemory>
    ensures { IfOk result (λ n. n ≡ last_bytes namespace last) }
{
    if last == 0 {
        return Ok(0);
    }
    let row = count_row(alloc, namespace, last)?;
    row_bytes(&row)
}
