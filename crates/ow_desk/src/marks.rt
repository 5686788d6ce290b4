// What receipts hold of calls that left no entry.
use ow_value::{Listed, NoMemory, PlainData};
use std::alloc::Global;

/// An event of a runner that was refused.
#[derive(Clone, Copy, Debug, PartialEq, Eq, Drop)]
pub enum Denial {
    /// That a run began.
    Begun { run: u64 },
    /// The reply to a run.
    Answered { run: u64 },
    /// That a run is lost.
    Lost { run: u64 },
    /// That the container of a slot is gone.
    Gone { slot: u32, generation: u32 },
}

/// The result of a call that left no entry in the book.
#[derive(Clone, Copy, Debug, PartialEq, Eq, Drop)]
pub enum Mark {
    /// The store failed.
    Stored,
    /// The book was full: how many bytes it counted, and how many the request has, 0 of a fire of the office.
    Full { counted: u64, size: u64 },
    /// An event of a runner was refused.
    Denied(Denial),
}

/// A list of marks, the oldest first.
pub type Marks = Listed<Mark>;

impl PlainData for Denial {
    fn same(&self, other: &Denial) -> bool {
        *self == *other
    }

    fn copy(&self, _alloc: Global) -> Result<Denial, NoMemory> {
        Ok(*self)
    }
}

impl PlainData for Mark {
    fn same(&self, other: &Mark) -> bool {
        *self == *other
    }

    fn copy(&self, _alloc: Global) -> Result<Mark, NoMemory> {
        Ok(*self)
    }
}
