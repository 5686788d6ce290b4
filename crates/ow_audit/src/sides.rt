// What differs between receipts and a book.
use ow_hall::Entry;
use ow_value::{NoMemory, PlainData};
use std::alloc::Global;

/// What one side has.
#[derive(Drop)]
pub enum Side {
    /// An entry.
    One(Entry),
    /// A number: a tally, how many times, or a place.
    Count(u64),
    /// Nothing.
    Nothing,
}

/// Where receipts and a book differ.
#[derive(Drop)]
pub struct Difference {
    /// The place in the book, from 0. It is the number of the book's entries where a number differs.
    pub place: u64,
    /// What the receipts have.
    pub held: Side,
    /// What the book has.
    pub kept: Side,
}

impl PlainData for Side {
    fn same(&self, other: &Side) -> bool {
        match (self, other) {
            (Side::One(a), Side::One(b)) => a.same(b),
            (Side::Count(a), Side::Count(b)) => a == b,
            (Side::Nothing, Side::Nothing) => true,
            _ => false,
        }
    }

    fn copy(&self, alloc: Global) -> Result<Side, NoMemory> {
        match self {
            Side::One(entry) => Ok(Side::One(entry.copy(alloc)?)),
            Side::Count(count) => Ok(Side::Count(*count)),
            Side::Nothing => Ok(Side::Nothing),
        }
    }
}

impl PlainData for Difference {
    fn same(&self, other: &Difference) -> bool {
        self.place == other.place && self.held.same(&other.held) && self.kept.same(&other.kept)
    }

    fn copy(&self, alloc: Global) -> Result<Difference, NoMemory> {
        let held = self.held.copy(alloc)?;
        let kept = self.kept.copy(alloc)?;
        Ok(Difference {
            place: self.place,
            held,
            kept,
        })
    }
}
