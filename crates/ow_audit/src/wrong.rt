// Entries that aren't the book's at their place.
ghost use Rattle.std.specs.Prelude.{◌≡◌, ◌↔◌, ℕ, [], ◌∷◌, Some, None, length, slice_get, IfOk, IsTrue, MatchOption};
ghost use Rattle.std.specs.Option.{option_copied};
ghost use Rattle.ow_audit.specs.Places.{AreTimes, IsBooked, IsRight, IsSoonest, notes_of, placed, sooner};
ghost use Rattle.ow_audit.specs.Differs.{WrongEntry, side_of};

use crate::sides::{Difference, Side};
use crate::times::first_missing;
use ow_desk::{Placed, Receipts};
use ow_hall::Entry;
use ow_traits::Keeper;
use ow_value::{NoMemory, PlainData};
use std::alloc::Global;

/// The first place of the book that isn't right in the receipts. The book has its oldest entry first, and the counts say how many
/// times each place occurs.
pub(crate) fn wrong_entry<P: Keeper + Drop>(
    alloc: Global,
    receipts: &[Receipts<P>],
    book: &[Entry],
    counts: &[u64],
) -> Result<Option<Difference>, NoMemory>
    requires { AreTimes (length book.now) (placed (notes_of receipts.now)) counts.now }
    ensures { IfOk result (λ r. MatchOption r ((k : ℕ) → IsRight book.now (placed (notes_of receipts.now)) k) (WrongEntry book.now (placed (notes_of receipts.now)))) }
{
    match (soonest_of(book, receipts), first_missing(counts)) {
        (None, None) => Ok(None),
        (Some(held), None) => Ok(Some(unbooked(alloc, book, held)?)),
        (None, Some(place)) => Ok(Some(unheld(alloc, book, place)?)),
        (Some(held), Some(place)) => {
            if held.place < place {
                Ok(Some(unbooked(alloc, book, held)?))
            } else {
                Ok(Some(unheld(alloc, book, place)?))
            }
        }
    }
}

// The book hasn't this entry at its place.
fn unbooked(alloc: Global, book: &[Entry], held: &Placed) -> Result<Difference, NoMemory>
    ensures { IfOk result (λ d. (d.place ≡ held.now.place) × (d.held ≡ Side.One held.now.entry) × (d.kept ≡ side_of (slice_get book.now held.now.place))) }
{
    let kept = side_at(alloc, book, held.place)?;
    let entry = held.entry.copy(alloc)?;
    Ok(Difference {
        place: held.place,
        held: Side::One(entry),
        kept,
    })
}

// No entry of the receipts is at this place.
fn unheld(alloc: Global, book: &[Entry], place: u64) -> Result<Difference, NoMemory>
    ensures { IfOk result (λ d. (d.place ≡ place) × (d.held ≡ Side.Nothing) × (d.kept ≡ side_of (slice_get book.now place))) }
{
    let kept = side_at(alloc, book, place)?;
    Ok(Difference {
        place,
        held: Side::Nothing,
        kept,
    })
}

/// The entry at a place of the book.
pub(crate) fn side_at(alloc: Global, book: &[Entry], place: u64) -> Result<Side, NoMemory>
    ensures { IfOk result (λ s. s ≡ side_of (slice_get book.now place)) }
{
    match book.get(place as usize) {
        Some(entry) => Ok(Side::One(entry.copy(alloc)?)),
        None => Ok(Side::Nothing),
    }
}

// Of the entries that aren't the book's the first at the least place.
fn soonest_of<'a, P: Keeper + Drop>(
    book: &[Entry],
    receipts: &'a [Receipts<P>],
) -> Option<&'a Placed>
    ensures { IsSoonest book.now (placed (notes_of receipts.entry.now)) (option_copied result) }
{
    let mut wrong = None;
    for held in receipts {
        wrong = sooner(wrong, soonest(book, held.entries().as_slice()));
    }
    wrong
}

fn soonest<'a>(book: &[Entry], entries: &'a [Placed]) -> Option<&'a Placed>
    ensures { IsSoonest book.now entries.entry.now (option_copied result) }
{
    let mut wrong = None;
    for held in entries {
        wrong = sooner(wrong, unless_booked(book, held));
    }
    wrong
}

fn unless_booked<'a>(book: &[Entry], held: &'a Placed) -> Option<&'a Placed>
    ensures { IsSoonest book.now (held.entry.now ∷ []) (option_copied result) }
{
    if is_booked(book, held) {
        None
    } else {
        Some(held)
    }
}

// Whether the book has the entry at its place.
fn is_booked(book: &[Entry], held: &Placed) -> bool
    ensures { IsTrue result ↔ IsBooked book.now held.now }
{
    match book.get(held.place as usize) {
        Some(entry) => entry.same(&held.entry),
        None => false,
    }
}

fn sooner<'a>(first: Option<&'a Placed>, second: Option<&'a Placed>) -> Option<&'a Placed>
    ensures { option_copied result ≡ sooner (option_copied first.entry) (option_copied second.entry) }
{
    match (first, second) {
        (None, second) => second,
        (Some(first), None) => Some(first),
        (Some(first), Some(second)) => {
            if first.place <= second.place {
                Some(first)
            } else {
                Some(second)
            }
        }
    }
}
