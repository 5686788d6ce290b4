// What an opening commits.
ghost use Rattle.std.specs.Prelude.{◌≡◌, ◌+◌, ◌++◌, ◌∷◌, [], codes, IfOk, OnOk};
ghost use Rattle.std.specs.List.{flat_map};
ghost use Rattle.ow_row_text.specs.Bytes.{bytes_of, weight_at};
ghost use Rattle.ow_row_text.specs.Item.{open_key};
ghost use Rattle.ow_row_text.specs.declared.item.Item.TheVariants as items;
ghost use Rattle.ow_row_text.specs.declared.item.RowsVersion.TheVariants as versions;
ghost use Rattle.ow_commits.specs.Commits.{end_changes, put_of};
ghost use Rattle.ow_commits.specs.Keeping.{done_bytes, row_bytes};
ghost use Rattle.ow_commits.specs.Opening.{abandoned, opens_bytes};
ghost use Rattle.ow_records.specs.Unrecorded.{abandoned_record};
ghost use Rattle.ow_traits.specs.declared.change_list.Change.TheVariants as changes;

use crate::gathered::{Gathered, row_bytes};
use ow_records::{Unrecorded, abandoned};
use ow_row_text::{Archive, RowsVersion, archive_row, done_row, open_row, version_row};
use ow_traits::Rows;
use ow_value::{NoMemory, Str};
use std::alloc::Global;

/// How many bytes the keys and the texts of the rows have.
pub(crate) fn bytes_of(rows: &[(Str, Str)]) -> Result<u64, NoMemory>
    ensures { IfOk result (λ n. n ≡ bytes_of rows.now) }
{
    let mut total: u64 = 0;
    for row in rows {
        let Some(sum) = total.checked_add(row_bytes(row)?) else {
            return Err(NoMemory);
        };
        total = sum;
    }
    Ok(total)
}

/// Puts the row of the version, in place of a stored one.
pub(crate) fn put_version(
    alloc: Global,
    gathered: &mut Gathered,
    rows: &Rows,
) -> Result<(), NoMemory>
    ensures changes { OnOk result (gathered.new.changes.items ≡ gathered.old.changes.items ++ put_of (items.Version versions.Second) ∷ []) }
    ensures bytes { OnOk result (gathered.new.bytes + weight_at (codes "version") rows.now ≡ gathered.old.bytes + row_bytes (items.Version versions.Second)) }
{
    let less = bytes_at(rows, "version")?;
    let version = version_row(alloc, RowsVersion::Second)?;
    gathered.put(version, less)?;
    Ok(())
}

/// Puts the row of the archive, in place of a stored one.
pub(crate) fn put_archive(
    alloc: Global,
    gathered: &mut Gathered,
    rows: &Rows,
    archive: Archive,
) -> Result<(), NoMemory>
    ensures changes { OnOk result (gathered.new.changes.items ≡ gathered.old.changes.items ++ put_of (items.Archive archive) ∷ []) }
    ensures bytes { OnOk result (gathered.new.bytes + weight_at (codes "archived") rows.now ≡ gathered.old.bytes + row_bytes (items.Archive archive)) }
{
    let less = bytes_at(rows, "archived")?;
    let archived = archive_row(alloc, archive)?;
    gathered.put(archived, less)?;
    Ok(())
}

// How many bytes the stored row at this key has, or 0 where there is none.
fn bytes_at(rows: &Rows, key: &str) -> Result<u64, NoMemory>
    ensures { IfOk result (λ n. n ≡ weight_at key.now rows.now) }
{
    let Some(text) = rows.find(key) else {
        return Ok(0);
    };
    match (text.len() as u64).checked_add(key.len() as u64) {
        Some(bytes) => Ok(bytes),
        None => Err(NoMemory),
    }
}

/// Each of these activations has ended as abandoned.
pub(crate) fn abandon_all(
    alloc: Global,
    gathered: &mut Gathered,
    at: u64,
    unrecorded: &[Unrecorded],
) -> Result<(), NoMemory>
    ensures changes { OnOk result (gathered.new.changes.items ≡ gathered.old.changes.items ++ flat_map end_changes (abandoned at unrecorded.now)) }
    ensures bytes { OnOk result (gathered.new.bytes + opens_bytes unrecorded.now ≡ gathered.old.bytes + done_bytes (abandoned at unrecorded.now)) }
{
    for activation in unrecorded {
        abandon(alloc, gathered, at, activation)?;
    }
    Ok(())
}

fn abandon(
    alloc: Global,
    gathered: &mut Gathered,
    at: u64,
    activation: &Unrecorded,
) -> Result<(), NoMemory>
    ensures changes { OnOk result (gathered.new.changes.items ≡ gathered.old.changes.items ++ end_changes (abandoned_record activation.now at)) }
    ensures bytes { OnOk result (gathered.new.bytes + row_bytes (items.Open activation.now) ≡ gathered.old.bytes + row_bytes (items.Done (abandoned_record activation.now at))) }
{
    drop_open(alloc, gathered, activation)?;
    let ended = abandoned(alloc, activation, at)?;
    let done = done_row(alloc, &ended);
    drop(ended);
    gathered.put(done?, 0)?;
    Ok(())
}

fn drop_open(
    alloc: Global,
    gathered: &mut Gathered,
    activation: &Unrecorded,
) -> Result<(), NoMemory>
    ensures changes { OnOk result (gathered.new.changes.items ≡ gathered.old.changes.items ++ changes.Drop (open_key activation.now.id) ∷ []) }
    ensures bytes { OnOk result (gathered.new.bytes + row_bytes (items.Open activation.now) ≡ gathered.old.bytes) }
{
    let open = open_row(alloc, activation)?;
    let less = row_bytes(&open)?;
    gathered.take_out(open.0, less)
}
