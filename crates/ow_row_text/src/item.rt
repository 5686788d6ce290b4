// What rows hold.
ghost use Rattle.std.specs.Prelude.{◌≡◌, ◌↔◌, IsTrue, IfOk};

use ow_entity::Row;
use ow_records::{Record, Unrecorded};
use ow_value::{NoMemory, PlainData, Str};
use std::alloc::Global;

/// What one row holds.
#[derive(Drop)]
pub enum Item {
    /// The form of the rows.
    Version(RowsVersion),
    /// What was archived.
    Archive(Archive),
    /// The last count that was drawn of a namespace.
    Count { namespace: u64, count: u64 },
    /// A note.
    Note(Note),
    /// An entity.
    Row(Row),
    /// An activation that has not ended.
    Open(Unrecorded),
    /// The record of one that has.
    Done(Record),
}

/// The form of the rows.
#[derive(Clone, Copy, Debug, PartialEq, Eq, Drop)]
pub enum RowsVersion {
    /// Without an archive and without notes.
    First,
    /// With the row of the archive.
    Second,
}

/// What was archived, since the first opening.
#[derive(Clone, Copy, Debug, PartialEq, Eq, Drop)]
pub struct Archive {
    /// The greatest end of an archived record, in milliseconds, or 0 where there is none.
    pub last: u64,
    /// How many records were archived.
    pub number: u64,
}

/// A number that is kept under a key.
#[derive(Drop)]
pub struct Note {
    /// The key. One that is kept has 1 to 1,024 bytes.
    pub key: Str,
    /// The number. One that is kept is at most the greatest moment.
    pub value: u64,
}

impl PlainData for Note {
    fn same(&self, other: &Note) -> bool {
        self.key.same(&other.key) && self.value == other.value
    }

    fn copy(&self, alloc: Global) -> Result<Note, NoMemory> {
        let key = self.key.copy(alloc)?;
        Ok(Note {
            key,
            value: self.value,
        })
    }
}
