// What the book holds.
use ow_decide::{Event, Told};
use ow_value::{Listed, NoMemory, PlainData};
use std::alloc::Global;

/// An event with its moment, in milliseconds, and its answer.
#[derive(Drop)]
pub struct Entry {
    /// The moment that is booked, which may be later than the one that was given.
    pub at: u64,
    /// What came.
    pub event: Event,
    /// What was answered.
    pub answer: Told,
}

/// A list of entries, the oldest first.
pub type Entries = Listed<Entry>;

impl PlainData for Entry {
    fn same(&self, other: &Entry) -> bool {
        self.at == other.at && self.event.same(&other.event) && self.answer.same(&other.answer)
    }

    fn copy(&self, alloc: Global) -> Result<Entry, NoMemory> {
        let event = self.event.copy(alloc)?;
        let answer = self.answer.copy(alloc)?;
        Ok(Entry {
            at: self.at,
            event,
            answer,
        })
    }
}
