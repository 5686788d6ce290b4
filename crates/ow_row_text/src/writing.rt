// The keys of rows.
ghost use Rattle.std.specs.Prelude.{◌≡◌, ◌++◌, IfOk};
ghost use Rattle.ow_row_text.specs.Item.{count_key, entity_key, note_key, open_key, done_key, row_kind};

use ow_entity::Row;
use ow_names::full_text;
use ow_records::Id;
use ow_value::{NoMemory, Str};
use std::alloc::Global;

/// The key of the last count of a namespace.
pub fn count_key(alloc: Global, namespace: u64) -> Result<Str, NoMemory>
    ensures { IfOk result (λ k. k ≡ count_key namespace) }
{
    let digits = hex::encode(alloc, namespace.to_be_bytes())?;
    joined(alloc, "count/", digits.as_str())
}

/// The key of a note's row, by the note's key.
pub fn note_key(alloc: Global, key: &str) -> Result<Str, NoMemory>
    ensures { IfOk result (λ k. k ≡ note_key key.now) }
{
    joined(alloc, "note/", key)
}

/// The key of an entity.
pub fn entity_key(alloc: Global, row: &Row) -> Result<Str, NoMemory>
    ensures { IfOk result (λ k. k ≡ entity_key row.now) }
{
    let mut key = String::with_capacity(alloc, 64)?;
    key.push_str("row/")?;
    key.push_str(row_kind(row))?;
    let name = full_text(alloc, row.name())?;
    key.push_str(name.as_str())?;
    Str::from_string(key)
}

fn row_kind(row: &Row) -> &'static str
    ensures { result.now ≡ row_kind row.now }
{
    match row {
        Row::Action(_) => "action",
        Row::Package(_) => "package",
        Row::Rule(_) => "rule",
        Row::Trigger(_) => "trigger",
    }
}

/// The key of an activation that has not ended.
pub fn open_key(alloc: Global, id: Id) -> Result<Str, NoMemory>
    ensures { IfOk result (λ k. k ≡ open_key id) }
{
    let digits = id.text(alloc)?;
    joined(alloc, "open/", digits.as_str())
}

/// The key of a record.
pub fn done_key(alloc: Global, id: Id) -> Result<Str, NoMemory>
    ensures { IfOk result (λ k. k ≡ done_key id) }
{
    let digits = id.text(alloc)?;
    joined(alloc, "done/", digits.as_str())
}

pub(crate) fn joined(alloc: Global, a: &str, b: &str) -> Result<Str, NoMemory>
    ensures { IfOk result (λ s. s ≡ a.now ++ b.now) }
{
    let mut text = String::with_capacity(alloc, 64)?;
    text.push_str(a)?;
    text.push_str(b)?;
    Str::from_string(text)
}
