// An entry of the book, with its place.
use ow_hall::Entry;
use ow_value::{Listed, NoMemory, PlainData};
use std::alloc::Global;

/// An entry of the book, as a receipt of it.
#[derive(Drop)]
pub struct Placed {
    /// Its place in the book, from 0.
    pub place: u64,
    /// The entry.
    pub entry: Entry,
}

/// A list of entries with their places, the oldest first.
pub type PlacedEntries = Listed<Placed>;

impl PlainData for Placed {
    fn same(&self, other: &Placed) -> bool {
        self.place == other.place && self.entry.same(&other.entry)
    }

    fn copy(&self, alloc: Global) -> Result<Placed, NoMemory> {
        Ok(Placed {
            place: self.place,
            entry: self.entry.copy(alloc)?,
        })
    }
}
