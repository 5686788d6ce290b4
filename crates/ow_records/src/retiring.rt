// The records whose ends are at most a moment, and the others.
ghost use Rattle.std.specs.Prelude.{◌≡◌, filter, IfOk};
ghost use Rattle.ow_records.specs.Order.{AreFrom};
ghost use Rattle.ow_records.specs.Records.{is_due, is_retained};

use crate::Record;
use ow_value::{NoMemory, PlainData, Shared};
use std::alloc::Global;

/// Copies of the records whose ends are at most `until`, in their order.
pub(crate) fn due_copies(
    alloc: Global,
    records: &[Shared<Record>],
    until: u64,
) -> Result<Vec<Record>, NoMemory>
    ensures { IfOk result (λ rs. rs.items ≡ filter (is_due until) records.now) }
{
    let mut copies = Vec::new(alloc);
    let mut rest = records;
    while let [kept, after @ ..] = rest {
        let kept = kept.get();
        if is_due(kept, until) {
            copies.push(kept.copy(alloc)?)?;
        }
        rest = after;
    }
    Ok(copies)
}

/// Removes the records whose ends are at most `until`. The others stay in their order.
pub(crate) fn retain_later(records: &mut Vec<Shared<Record>>, until: u64)
    ensures { records.new.items ≡ filter (is_retained until) records.old.items }
{
    records.retain(|kept| !is_due(kept.get(), until));
}

/// A moment that no end of the records is before: the least end, where there is a record.
pub(crate) fn least_end(records: &[Shared<Record>]) -> u64
    ensures { AreFrom result records.now }
{
    let mut least = u64::MAX;
    let mut rest = records;
    while let [kept, after @ ..] = rest {
        least = least.min(kept.get().span.end());
        rest = after;
    }
    least
}

fn is_due(kept: &Record, until: u64) -> bool
    ensures { result ≡ is_due until kept.now }
{
    kept.span.end() <= until
}
