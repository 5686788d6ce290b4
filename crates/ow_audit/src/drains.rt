// The drain of a book that has its oldest entry first.
ghost use Rattle.std.specs.Prelude.{◌≡◌, true, reverse, slice_get, IfOk, MatchOption};
ghost use Rattle.std.specs.Option.{option_and_then};
ghost use Rattle.ow_audit.specs.Differs.{Undrained, side_of};
ghost use Rattle.ow_audit.specs.Drains.{ends_drained, is_asked, is_drain, is_drained, last_place};

use crate::sides::{Difference, Side};
use crate::wrong::side_at;
use ow_decide::{Event, Told};
use ow_floor::Drain;
use ow_hall::Entry;
use ow_value::NoMemory;
use std::alloc::Global;

/// The last drain and the last request, where no drain after that request answered that all is drained.
pub(crate) fn undrained(alloc: Global, book: &[Entry]) -> Result<Option<Difference>, NoMemory>
    ensures { IfOk result (λ r. MatchOption r (ends_drained (reverse book.now) ≡ true) (Undrained (reverse book.now))) }
{
    if ends_drained(book) {
        return Ok(None);
    }
    let asked = last_asked(book);
    let held = side_of(alloc, book, last_drain(book))?;
    let kept = side_of(alloc, book, asked)?;
    let place = asked.unwrap_or(book.len() as u64);
    Ok(Some(Difference { place, held, kept }))
}

// The entry at a place, where there is one.
fn side_of(alloc: Global, book: &[Entry], place: Option<u64>) -> Result<Side, NoMemory>
    ensures { IfOk result (λ s. s ≡ side_of (option_and_then (slice_get book.now) place)) }
{
    match place {
        Some(place) => side_at(alloc, book, place),
        None => Ok(Side::Nothing),
    }
}

// Whether a drain answered that all is drained, and no request comes after it.
fn ends_drained(book: &[Entry]) -> bool
    ensures { result ≡ ends_drained (reverse book.now) }
{
    let mut drained = false;
    for entry in book {
        if is_drained(entry) {
            drained = true;
        } else if is_asked(entry) {
            drained = false;
        }
    }
    drained
}

// The place of the last request.
fn last_asked(book: &[Entry]) -> Option<u64>
    ensures { result ≡ last_place is_asked (reverse book.now) }
{
    let mut last = None;
    for (i, entry) in book.iter().enumerate() {
        if is_asked(entry) {
            last = Some(i as u64);
        }
    }
    last
}

// The place of the last drain, whatever it answered.
fn last_drain(book: &[Entry]) -> Option<u64>
    ensures { result ≡ last_place is_drain (reverse book.now) }
{
    let mut last = None;
    for (i, entry) in book.iter().enumerate() {
        if is_drain(entry) {
            last = Some(i as u64);
        }
    }
    last
}

fn is_asked(entry: &Entry) -> bool
    ensures { result ≡ is_asked entry.now }
{
    matches!(entry.event, Event::Asked(_))
}

fn is_drain(entry: &Entry) -> bool
    ensures { result ≡ is_drain entry.now }
{
    matches!(entry.event, Event::Drain)
}

fn is_drained(entry: &Entry) -> bool
    ensures { result ≡ is_drained entry.now }
{
    is_drain(entry) && matches!(entry.answer, Told::Drain(Drain::Drained(_)))
}
