// What kept rows hold.
ghost use Rattle.std.specs.Prelude.{◌≡◌, IfOk, OnOk, IfErr};
ghost use Rattle.ow_keep.specs.Split.{behind_parts, no_parts, parts_of, split};

use crate::refusal::KeepRefusal;
use ow_entity::Row;
use ow_records::{Id, Record, Unrecorded};
use ow_row_text::{Archive, Item, Note, RowsVersion};
use std::alloc::Global;

/// What kept rows hold, each kind in the order of its keys.
#[derive(Drop)]
pub struct Kept {
    /// The form of the rows, where there is any row.
    pub version: Option<RowsVersion>,
    /// What was archived, where the form has that.
    pub archive: Option<Archive>,
    /// The last id of each namespace.
    pub counts: Vec<Id>,
    /// The notes.
    pub notes: Vec<Note>,
    /// The activations that have not ended.
    pub unrecorded: Vec<Unrecorded>,
    /// The records of the ended activations.
    pub records: Vec<Record>,
    /// The entities.
    pub entities: Vec<Row>,
}

impl Kept {
    /// Nothing. This takes no memory.
    pub(crate) fn new(alloc: Global) -> Kept
        ensures { parts_of result ≡ no_parts }
    {
        Kept {
            version: None,
            archive: None,
            counts: Vec::new(alloc),
            notes: Vec::new(alloc),
            unrecorded: Vec::new(alloc),
            records: Vec::new(alloc),
            entities: Vec::new(alloc),
        }
    }

    /// Adds the item after the others of its kind.
    pub(crate) fn push(&mut self, item: Item) -> Result<(), KeepRefusal>
        ensures ok { OnOk result (parts_of self.new ≡ behind_parts (parts_of self.old) item) }
        ensures err { IfErr result (λ e. e ≡ KeepRefusal.NoMemory) }
    {
        match item {
            Item::Version(version) => self.version = self.version.or(Some(version)),
            Item::Archive(archive) => self.archive = self.archive.or(Some(archive)),
            Item::Count { namespace, count } => self.counts.push(Id { namespace, count })?,
            Item::Note(note) => self.notes.push(note)?,
            Item::Row(row) => self.entities.push(row)?,
            Item::Open(activation) => self.unrecorded.push(activation)?,
            Item::Done(ended) => self.records.push(ended)?,
        }
        Ok(())
    }
}

/// The items, each kind by itself.
pub(crate) fn split(alloc: Global, items: Vec<Item>) -> Result<Kept, KeepRefusal>
    ensures ok { IfOk result (λ k. parts_of k ≡ split items.items) }
    ensures err { IfErr result (λ e. e ≡ KeepRefusal.NoMemory) }
{
    let mut kept = Kept::new(alloc);
    for item in items {
        kept.push(item)?;
    }
    Ok(kept)
}
