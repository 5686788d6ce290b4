// What is committed of an end.
ghost use Rattle.std.specs.Prelude.{◌≡◌, ◌+◌, ◌++◌, OnOk};
ghost use Rattle.std.specs.List.{position};
ghost use Rattle.ow_floor.specs.View.{remove_first};
ghost use Rattle.ow_row_text.specs.declared.item.Item.TheVariants as items;
ghost use Rattle.ow_commits.specs.Commits.{end_changes};
ghost use Rattle.ow_commits.specs.Keeping.{bytes_at, is_of, row_bytes};

use crate::gathered::Gathered;
use crate::open_bytes::OpenBytes;
use ow_records::{Id, Record};
use ow_row_text::{done_row, open_key};
use ow_value::NoMemory;
use std::alloc::Global;

/// The activation has ended with this record.
pub(crate) fn end(
    alloc: Global,
    gathered: &mut Gathered,
    opens: &[OpenBytes],
    ended: &Record,
) -> Result<(), NoMemory>
    ensures changes { OnOk result (gathered.new.changes.items ≡ gathered.old.changes.items ++ end_changes ended.now) }
    ensures bytes { OnOk result (gathered.new.bytes + bytes_at ended.now.id opens.now ≡ gathered.old.bytes + row_bytes (items.Done ended.now)) }
{
    let key = open_key(alloc, ended.id)?;
    gathered.take_out(key, bytes_at(opens, ended.id))?;
    let done = done_row(alloc, ended)?;
    gathered.put(done, 0)?;
    Ok(())
}

// How many bytes the row of the activation has.
fn bytes_at(opens: &[OpenBytes], id: Id) -> u64
    ensures { result ≡ bytes_at id opens.now }
{
    for row in opens {
        if row.id == id {
            return row.bytes;
        }
    }
    0
}

/// The activation has ended.
pub(crate) fn remove(opens: &mut Vec<OpenBytes>, id: Id)
    ensures { opens.new.items ≡ remove_first (is_of id) opens.old.items }
{
    if let Some(place) = place(opens, id) {
        opens.remove(place);
    }
}

// The activation's place in the list.
fn place(opens: &[OpenBytes], id: Id) -> Option<usize>
    ensures { result ≡ position (is_of id) opens.now }
{
    opens.iter().position(|row| row.id == id)
}
