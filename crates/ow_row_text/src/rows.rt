// The rows of items.
ghost use Rattle.std.specs.Prelude.{◌≡◌, IfOk};
ghost use Rattle.ow_row_text.specs.Item.{item_row, version_text};
ghost use Rattle.ow_row_text.specs.declared.item.Item.TheVariants as items;

use crate::archive_text::archive_text;
use crate::done_text::done_text;
use crate::item::{Archive, Item, Note, RowsVersion};
use crate::open_text::open_text;
use crate::writing::{count_key, entity_key, joined, note_key};
use ow_entity::{Row, write_entity};
use ow_records::{Record, Unrecorded};
use ow_value::{NoMemory, Str, val_text};
use std::alloc::Global;

/// The key and the text of the item's row.
pub fn row_text(alloc: Global, item: &Item) -> Result<(Str, Str), NoMemory>
    ensures { IfOk result (λ r. r ≡ item_row item.now) }
{
    match item {
        Item::Version(version) => version_row(alloc, *version),
        Item::Archive(archive) => archive_row(alloc, *archive),
        Item::Count { namespace, count } => count_row(alloc, *namespace, *count),
        Item::Note(note) => note_row(alloc, note),
        Item::Row(row) => entity_row(alloc, row),
        Item::Open(activation) => open_row(alloc, activation),
        Item::Done(ended) => done_row(alloc, ended),
    }
}

/// The row of the form.
#[tactic(auto, unfolding(crate::specs::Item::item_text))]
pub fn version_row(alloc: Global, version: RowsVersion) -> Result<(Str, Str), NoMemory>
    ensures { IfOk result (λ r. r ≡ item_row (items.Version version)) }
{
    let key = Str::of(alloc, "version")?;
    let text = Str::of(alloc, version_text(version))?;
    Ok((key, text))
}

fn version_text(version: RowsVersion) -> &'static str
    ensures { result.now ≡ version_text version }
{
    match version {
        RowsVersion::First => "1",
        RowsVersion::Second => "2",
    }
}

/// The row of the archive.
#[tactic(auto, unfolding(crate::specs::Item::item_text))]
pub fn archive_row(alloc: Global, archive: Archive) -> Result<(Str, Str), NoMemory>
    ensures { IfOk result (λ r. r ≡ item_row (items.Archive archive)) }
{
    let key = Str::of(alloc, "archived")?;
    let text = archive_text(alloc, archive)?;
    Ok((key, text))
}

/// The row of the last count of a namespace.
#[tactic(auto, unfolding(crate::specs::Item::item_text))]
pub fn count_row(alloc: Global, namespace: u64, count: u64) -> Result<(Str, Str), NoMemory>
    ensures { IfOk result (λ r. r ≡ item_row (items.Count namespace count)) }
{
    let key = count_key(alloc, namespace)?;
    let digits = format!(in alloc; "{count}")?;
    let text = Str::from_string(digits)?;
    Ok((key, text))
}

/// The row of a note.
#[tactic(auto, unfolding(crate::specs::Item::item_text))]
pub fn note_row(alloc: Global, note: &Note) -> Result<(Str, Str), NoMemory>
    ensures { IfOk result (λ r. r ≡ item_row (items.Note note.now)) }
{
    let key = note_key(alloc, note.key.as_str())?;
    let value = note.value;
    let digits = format!(in alloc; "{value}")?;
    let text = Str::from_string(digits)?;
    Ok((key, text))
}

/// The row of an entity.
#[tactic(auto, unfolding(crate::specs::Item::item_text))]
pub fn entity_row(alloc: Global, row: &Row) -> Result<(Str, Str), NoMemory>
    ensures { IfOk result (λ r. r ≡ item_row (items.Row row.now)) }
{
    let key = entity_key(alloc, row)?;
    let value = write_entity(alloc, row)?;
    let text = val_text(alloc, &value)?;
    Ok((key, text))
}

/// The row of an activation that has not ended.
#[tactic(auto, unfolding(crate::specs::Item::item_text))]
pub fn open_row(alloc: Global, activation: &Unrecorded) -> Result<(Str, Str), NoMemory>
    ensures { IfOk result (λ r. r ≡ item_row (items.Open activation.now)) }
{
    let digits = activation.id.text(alloc)?;
    let key = joined(alloc, "open/", digits.as_str())?;
    let text = open_text(alloc, activation, digits.as_str())?;
    Ok((key, text))
}

/// The row of a record.
#[tactic(auto, unfolding(crate::specs::Item::item_text))]
pub fn done_row(alloc: Global, ended: &Record) -> Result<(Str, Str), NoMemory>
    ensures { IfOk result (λ r. r ≡ item_row (items.Done ended.now)) }
{
    let digits = ended.id.text(alloc)?;
    let key = joined(alloc, "done/", digits.as_str())?;
    let text = done_text(alloc, ended, digits.as_str())?;
    Ok((key, text))
}
