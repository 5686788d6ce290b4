// Changes of kept rows and of old rows.
use ow_value::{Items, NoMemory, PlainData, Str};
use std::alloc::Global;

/// A change of one row. Old rows are kept beside the rows, and aren't loaded with them.
#[derive(Drop)]
pub enum Change {
    /// Puts a text at a key, in place of one that is there.
    Put(Str, Str),
    /// Takes a key out with its text, if it is there.
    Drop(Str),
    /// Takes a key out of the rows, if it is there, and puts this text at it among the old rows, in place of one that is there.
    Retire(Str, Str),
}

/// Changes in the order in which they are made.
pub type Changes = Items<Change>;

impl PlainData for Change {
    fn same(&self, other: &Change) -> bool {
        match (self, other) {
            (Change::Put(key, text), Change::Put(other_key, other_text)) => {
                key.same(other_key) && text.same(other_text)
            }
            (Change::Drop(key), Change::Drop(other_key)) => key.same(other_key),
            (Change::Retire(key, text), Change::Retire(other_key, other_text)) => {
                key.same(other_key) && text.same(other_text)
            }
            _ => false,
        }
    }

    fn copy(&self, alloc: Global) -> Result<Change, NoMemory> {
        match self {
            Change::Put(key, text) => Ok(Change::Put(key.copy(alloc)?, text.copy(alloc)?)),
            Change::Drop(key) => Ok(Change::Drop(key.copy(alloc)?)),
            Change::Retire(key, text) => Ok(Change::Retire(key.copy(alloc)?, text.copy(alloc)?)),
        }
    }
}
