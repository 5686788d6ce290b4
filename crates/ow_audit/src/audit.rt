// The comparison of receipts with a book.
ghost use Rattle.std.specs.Prelude.{◌≡◌, ◌↔◌, length, reverse, IfOk, IfSome, IsNone, MatchOption};
ghost use Rattle.ow_audit.specs.Differs.{Counts, Differs, Matches, SidesDiffer};
ghost use Rattle.ow_audit.specs.Places.{AreTimes, notes_of, placed};

use crate::drains::undrained;
use crate::falls::first_fall_of;
use crate::numbers::wrong_number;
use crate::sides::{Difference, Side};
use crate::times::{first_twice, times_of};
use crate::wrong::wrong_entry;
use ow_desk::Receipts;
use ow_hall::{Book, Entry};
use ow_traits::Keeper;
use ow_value::NoMemory;
use std::alloc::Global;

/// The first difference between all receipts of a service and its book, or `None` where they match. In this order: an entry at a place,
/// a number, the drain, a place that occurs more than once, places that don't rise in one receipts. The only error is out of memory. It
/// takes a u64 for each entry of the book, and its time is linear: each entry of the receipts is compared once with the book's.
pub fn first_difference<P: Keeper + Drop>(
    alloc: Global,
    receipts: &[Receipts<P>],
    book: &Book,
) -> Result<Option<Difference>, NoMemory>
    ensures compared { IfOk result (λ r. MatchOption r (Matches (notes_of receipts.now) book.now.ledger) (Differs (notes_of receipts.now) book.now.ledger)) }
    ensures none { IfOk result (λ r. IsNone r ↔ Matches (notes_of receipts.now) book.now.ledger) }
    ensures sides { IfOk result (λ r. IfSome r (SidesDiffer (notes_of receipts.now))) }
{
    let entries = book.entries().as_slice();
    let counts = times_of(alloc, receipts, entries.len())?;
    compare(alloc, receipts, book, entries, counts.as_slice())
}

fn compare<P: Keeper + Drop>(
    alloc: Global,
    receipts: &[Receipts<P>],
    book: &Book,
    entries: &[Entry],
    counts: &[u64],
) -> Result<Option<Difference>, NoMemory>
    requires entries { reverse entries.now ≡ book.now.ledger.entries }
    requires counts { AreTimes (length entries.now) (placed (notes_of receipts.now)) counts.now }
    ensures { IfOk result (λ r. MatchOption r (Matches (notes_of receipts.now) book.now.ledger) (Differs (notes_of receipts.now) book.now.ledger)) }
{
    if let Some(found) = wrong_entry(alloc, receipts, entries, counts)? {
        return Ok(Some(found));
    }
    if let Some((held, kept)) = wrong_number(receipts, book) {
        return Ok(Some(of_counts(entries.len() as u64, held, kept)));
    }
    if let Some(found) = undrained(alloc, entries)? {
        return Ok(Some(found));
    }
    if let Some((place, held)) = first_twice(counts) {
        return Ok(Some(of_counts(place, held, 1)));
    }
    if let Some((earlier, later)) = first_fall_of(receipts) {
        return Ok(Some(of_counts(later, earlier, later)));
    }
    Ok(None)
}

// Two numbers at a place.
fn of_counts(place: u64, held: u64, kept: u64) -> Difference
    ensures { Counts place held kept result }
{
    Difference {
        place,
        held: Side::Count(held),
        kept: Side::Count(kept),
    }
}
