// What lists of records show.
ghost use Rattle.std.specs.Prelude.{◌≡◌, drop, map, reverse, take, IfOk};
ghost use Rattle.ow_records.specs.Written.{summary_value};

use crate::{Record, write_summary};
use ow_value::{NoMemory, Shared, Vals};
use std::alloc::Global;

/// The summaries of the records, the last first, without the first `skip` of them, and at most `limit`.
pub(crate) fn last_shown(
    alloc: Global,
    records: &[Shared<Record>],
    skip: u64,
    limit: u64,
) -> Result<Vals, NoMemory>
    ensures { IfOk result (λ vs. vs ≡ map summary_value (take limit (drop skip (reverse records.now)))) }
{
    let first = skip.min(records.len() as u64) as usize;
    let rest = &records[..records.len() - first];
    let many = limit.min(rest.len() as u64) as usize;
    summaries(alloc, &rest[rest.len() - many..])
}

// The last first.
fn summaries(alloc: Global, records: &[Shared<Record>]) -> Result<Vals, NoMemory>
    ensures { IfOk result (λ vs. vs ≡ map summary_value (reverse records.now)) }
{
    let mut shown = Vec::new(alloc);
    let mut rest = records;
    while let [front @ .., last] = rest {
        shown.push(write_summary(alloc, last.get())?)?;
        rest = front;
    }
    Vals::from_vec(shown)
}
