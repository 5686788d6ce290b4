// Rows of one kind, by their places among them.
ghost use Rattle.std.specs.Prelude.{◌≡◌, ◌∷◌, [], filter};
ghost use Rattle.std.specs.Option.{option_copied};
ghost use Rattle.ow_value.specs.Value.{text_cmp};
ghost use Rattle.ow_tables.specs.Rows.{AreRows, kind_place};
ghost use Rattle.ow_hall.specs.Places.{is_of, kind_key, nth_of};

use ow_entity::{EntityKind, Row};
use std::cmp::Ordering;

/// The row of the kind at a place, counted from 0, by full text.
pub(crate) fn nth_row(rows: &[Row], kind: EntityKind, k: u64) -> Option<&Row>
    requires { AreRows rows.now }
    ensures { option_copied result ≡ nth_of kind k rows.now }
{
    let part = rows_of(rows, kind);
    if k < part.len() as u64 {
        Some(&part[k as usize])
    } else {
        None
    }
}

// The rows of the kind, which are adjacent.
fn rows_of(rows: &[Row], kind: EntityKind) -> &[Row]
    requires { AreRows rows.now }
    ensures { result.now ≡ filter (is_of kind) rows.now }
{
    let start = rows.partition_point(|row| kind_order(row, kind).is_lt());
    let rest = &rows[start..];
    let count = rest.partition_point(|row| kind_order(row, kind).is_le());
    &rest[..count]
}

// How the kind of the row compares to the kind.
fn kind_order(row: &Row, kind: EntityKind) -> Ordering
    ensures { result ≡ text_cmp (kind_key row.now) (kind_place kind ∷ []) }
{
    kind_place(row.kind()).cmp(&kind_place(kind))
}

fn kind_place(kind: EntityKind) -> u8
    ensures { result ≡ kind_place kind }
{
    match kind {
        EntityKind::Action => 0,
        EntityKind::Package => 1,
        EntityKind::Rule => 2,
        EntityKind::Trigger => 3,
    }
}
