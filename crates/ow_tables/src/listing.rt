// What lists show.
ghost use Rattle.std.specs.Prelude.{◌≡◌, filter, map, IfOk};
ghost use Rattle.ow_entity.specs.Written.{summary_value};
ghost use Rattle.ow_tables.specs.Rows.{stands_in, listing};
ghost use Rattle.ow_tables.specs.Region.{AreKept};

use crate::row_order::region_order;
use ow_entity::{EntityKind, Row, summary};
use ow_names::EntityName;
use ow_value::{NoMemory, Vals};
use std::alloc::Global;

/// The summaries of the rows of the kind in the namespace, without the first `skip`, and at most `limit`.
pub(crate) fn listing(
    alloc: Global,
    rows: &[Row],
    kind: EntityKind,
    namespace: &EntityName,
    skip: u64,
    limit: u64,
) -> Result<Vals, NoMemory>
    requires { AreKept rows.now }
    ensures { IfOk result (λ vs. vs ≡ listing kind namespace.now skip limit rows.now) }
{
    let part = part(rows, kind, namespace);
    let first = skip.min(part.len() as u64) as usize;
    let rest = &part[first..];
    let many = limit.min(rest.len() as u64) as usize;
    summaries(alloc, &rest[..many])
}

/// The rows of the kind in the namespace, which are adjacent.
pub(crate) fn part<'a>(rows: &'a [Row], kind: EntityKind, namespace: &EntityName) -> &'a [Row]
    requires { AreKept rows.now }
    ensures { result.now ≡ filter (stands_in kind namespace.now) rows.now }
{
    let start = rows.partition_point(|row| region_order(row, kind, namespace).is_lt());
    let rest = &rows[start..];
    let count = rest.partition_point(|row| region_order(row, kind, namespace).is_le());
    &rest[..count]
}

fn summaries(alloc: Global, rows: &[Row]) -> Result<Vals, NoMemory>
    ensures { IfOk result (λ vs. vs ≡ map summary_value rows.now) }
{
    let mut shown = Vec::new(alloc);
    for row in rows {
        shown.push(summary(alloc, row)?)?;
    }
    Vals::from_vec(shown)
}
