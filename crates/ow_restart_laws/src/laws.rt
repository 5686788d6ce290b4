// What lasts. All functions except the first do nothing: their contracts are the laws.
ghost use Rattle.ow_restart_laws.specs.Laws.{BooksAreAllowed, BooksLast, IsAllowedNext, KeptLasts, OthersLast, OthersOfBooksLast, RowsLast, TablesHaveHomes, TracesLast};
ghost use Rattle.ow_restart_laws.specs.RowsKept.{RowsOfBodiesAreWritable};

use ow_hall::Hall;
use ow_traits::Keeper;

/// What is kept of the hall's book is allowed at its next opening, and is read as just what is kept of it: the archive, the notes, the rows
/// of entities, the last counts, the activations that have not ended, and the records. It looks at all of these, and at the office table.
pub fn what_a_hall_keeps_is_allowed<P: Keeper + Drop>(hall: &Hall<P>)
    ensures { IsAllowedNext hall.now.tenants hall.now.ledger.entries }
{
    hall.known_items();
    hall.known_homes();
    hall.book();
}

/// What is kept of a legal book is allowed at the next opening, where each part of it is as its type guarantees.
pub fn kept_books_are_allowed()
    ensures { BooksAreAllowed }
{}

/// All that is kept of a legal book nests no deeper than is read. Its moments and durations are within the greatest, its counts and
/// versions begin with 1, its packages are in no packages, and its bindings name packages. Its archive and its notes are such as may be kept,
/// but for the number of archived records, which has no bound of its own.
pub fn kept_books_last()
    ensures kept { BooksLast }
    ensures others { OthersOfBooksLast }
{}

/// Each key's own namespace is a name in each office table that a text makes.
pub fn tables_have_homes()
    ensures { TablesHaveHomes }
{}

/// Rows that last, what happened, the archive and the notes last from event to event; so does what is kept of them.
pub fn what_lasts_goes_on()
    ensures rows { RowsLast }
    ensures traces { TracesLast }
    ensures others { OthersLast }
    ensures kept { KeptLasts }
{}

/// A row that a body makes is read back as it was written: it nests no deeper than is read, its version counts from 1, a package is in no
/// package, and its binding names a package. For a sequence this holds where it has no more components than a put allows.
pub fn rows_of_bodies_are_writable()
    ensures { RowsOfBodiesAreWritable }
{}
