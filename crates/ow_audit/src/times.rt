// How many times each place of a book occurs in receipts.
ghost use Rattle.std.specs.Prelude.{◌≡◌, ◌+◌, ◌<◌, ◌≤◌, ◌==◌, ℕ, Some, None, cond, length, slice_index, IfOk, MatchOption};
ghost use Rattle.ow_audit.specs.Numbers.{capped};
ghost use Rattle.ow_audit.specs.Places.{AreTimes, notes_of, placed, times};

use ow_desk::{Placed, Receipts};
use ow_traits::Keeper;
use ow_value::NoMemory;
use std::alloc::Global;

/// For each place of a book of `len` entries how many times it occurs in the receipts. A count saturates at the greatest u64.
pub(crate) fn times_of<P: Keeper + Drop>(
    alloc: Global,
    receipts: &[Receipts<P>],
    len: usize,
) -> Result<Vec<u64>, NoMemory>
    ensures { IfOk result (λ t. AreTimes len (placed (notes_of receipts.now)) t.items) }
{
    let mut counts = vec![in alloc; 0u64; len]?;
    for held in receipts {
        count_places(&mut counts, held.entries().as_slice());
    }
    Ok(counts)
}

// Counts the places of these entries too.
fn count_places(counts: &mut [u64], entries: &[Placed])
    ensures { (k : ℕ) → k < length counts.old → slice_index counts.new k ≡ capped (slice_index counts.old k + times k entries.now) }
{
    for it in entries {
        count(counts, it.place);
    }
}

// Counts a place once more, where it is one of the book.
fn count(counts: &mut [u64], place: u64)
    ensures { (k : ℕ) → k < length counts.old → slice_index counts.new k ≡ cond (place == k) (capped (slice_index counts.old k + 1)) (slice_index counts.old k) }
{
    if place < counts.len() as u64 {
        let at = place as usize;
        counts[at] = counts[at].saturating_add(1);
    }
}

/// The first place that doesn't occur there.
pub(crate) fn first_missing(counts: &[u64]) -> Option<u64>
    ensures { MatchOption result ((k : ℕ) → k < length counts.now → 0 < slice_index counts.now k)
        (λ p. (p < length counts.now) × (slice_index counts.now p ≡ 0) × ((k : ℕ) → k < p → 0 < slice_index counts.now k)) }
{
    for (i, count) in counts.iter().enumerate() {
        if *count == 0 {
            return Some(i as u64);
        }
    }
    None
}

/// The first place that occurs there more than once, with how many times.
pub(crate) fn first_twice(counts: &[u64]) -> Option<(u64, u64)>
    ensures { MatchOption result ((k : ℕ) → k < length counts.now → slice_index counts.now k ≤ 1)
        (λ p. (p.0 < length counts.now) × (slice_index counts.now p.0 ≡ p.1) × (1 < p.1) × ((k : ℕ) → k < p.0 → slice_index counts.now k ≤ 1)) }
{
    for (i, count) in counts.iter().enumerate() {
        if *count > 1 {
            return Some((i as u64, *count));
        }
    }
    None
}
