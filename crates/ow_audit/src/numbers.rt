// The numbers of receipts, and those of a book.
ghost use Rattle.std.specs.Prelude.{◌≡◌, ℕ, Some, None, MatchOption};
ghost use Rattle.std.specs.List.{count_by};
ghost use Rattle.ow_audit.specs.Numbers.{NumbersMatch, WrongNumber, above, denied, first_above, first_above_of, is_stored, quiet, stored};
ghost use Rattle.ow_audit.specs.Places.{notes_of};

use ow_desk::{Mark, Receipts};
use ow_hall::Book;
use ow_traits::Keeper;

/// How many calls of all receipts had an outcome that leaves no entry, by its kind. Each number saturates at the greatest u64.
#[derive(Clone, Copy)]
struct Numbers {
    stored: u64,
    quiet: u64,
    denied: u64,
}

/// The first number of the receipts that isn't the book's, with the book's.
pub(crate) fn wrong_number<P: Keeper + Drop>(
    receipts: &[Receipts<P>],
    book: &Book,
) -> Option<(u64, u64)>
    ensures { MatchOption result (NumbersMatch (notes_of receipts.now) book.now.ledger) (λ p. WrongNumber (notes_of receipts.now) book.now.ledger p.0 p.1) }
{
    let numbers = numbers_of(receipts);
    if numbers.stored != book.stored() {
        return Some((numbers.stored, book.stored()));
    }
    if numbers.quiet != book.quiet() {
        return Some((numbers.quiet, book.quiet()));
    }
    if numbers.denied != book.denied() {
        return Some((numbers.denied, book.denied()));
    }
    match first_above_of(receipts, book.counted()) {
        Some(counted) => Some((counted, book.counted())),
        None => None,
    }
}

fn numbers_of<P: Keeper + Drop>(receipts: &[Receipts<P>]) -> Numbers
    ensures stored { result.stored ≡ stored (notes_of receipts.now) }
    ensures quiet { result.quiet ≡ quiet (notes_of receipts.now) }
    ensures denied { result.denied ≡ denied (notes_of receipts.now) }
{
    let mut stored = 0u64;
    let mut quiet = 0u64;
    let mut denied = 0u64;
    for held in receipts {
        stored = stored.saturating_add(stored_in(held.marks().as_slice()));
        quiet = quiet.saturating_add(held.quiet());
        denied = denied.saturating_add(held.denied());
    }
    Numbers {
        stored,
        quiet,
        denied,
    }
}

fn stored_in(marks: &[Mark]) -> u64
    ensures { result ≡ count_by is_stored marks.now }
{
    marks.iter().filter(|mark| is_stored(mark)).count() as u64
}

fn is_stored(mark: &Mark) -> bool
    ensures { result ≡ is_stored mark.now }
{
    matches!(mark, Mark::Stored)
}

// Of all requests that found the book full the first for which it counted more than this.
fn first_above_of<P: Keeper + Drop>(receipts: &[Receipts<P>], counted: u64) -> Option<u64>
    ensures { result ≡ first_above_of counted (notes_of receipts.now) }
{
    for held in receipts {
        if let Some(above) = first_above(held.marks().as_slice(), counted) {
            return Some(above);
        }
    }
    None
}

fn first_above(marks: &[Mark], counted: u64) -> Option<u64>
    ensures { result ≡ first_above counted marks.now }
{
    for mark in marks {
        if let Some(above) = above(mark, counted) {
            return Some(above);
        }
    }
    None
}

fn above(mark: &Mark, counted: u64) -> Option<u64>
    ensures { result ≡ above counted mark.now }
{
    match mark {
        Mark::Full { counted: then, .. } if *then > counted => Some(*then),
        _ => None,
    }
}
