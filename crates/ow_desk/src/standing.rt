// The state of a book before a call.
ghost use Rattle.ow_desk.specs.Notes.{IsStanding};

use ow_hall::Book;

/// The state of a book before a call at a moment.
#[derive(Clone, Copy, Debug, PartialEq, Eq)]
pub(crate) struct Standing {
    /// The place of the next entry.
    pub(crate) place: u64,
    /// The moment that is booked, in milliseconds.
    pub(crate) at: u64,
    /// How many bytes the book counts.
    pub(crate) counted: u64,
    /// Whether the last entry is a `next` that ordered nothing.
    pub(crate) idle: bool,
}

impl Standing {
    /// The state of this book, for a call at a moment.
    pub(crate) fn of(book: &Book, at: u64) -> Standing
        ensures { IsStanding book.now.ledger.entries at result }
    {
        Standing {
            place: book.entries().len() as u64,
            at: book.moment(at),
            counted: book.counted(),
            idle: book.is_idle(),
        }
    }
}
