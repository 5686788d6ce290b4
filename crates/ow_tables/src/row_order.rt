// The order of rows, and their places in it.
ghost use Rattle.std.specs.Prelude.{◌≡◌, ◌≤◌, ◌<◌, length, IfOk, IfErr};
ghost use Rattle.std.specs.List.{HoldsAt};
ghost use Rattle.std.specs.List.Sorted.{IsPartitionPoint};
ghost use Rattle.std.specs.declared.cmp.Ordering.TheVariants.{Less, Equal, Greater};
ghost use Rattle.ow_value.specs.Value.{text_cmp};
ghost use Rattle.ow_entity.specs.Row.{kind_of, name_of};
ghost use Rattle.ow_tables.specs.Rows.{AreRows, kind_place, key, key_of};
ghost use Rattle.ow_tables.specs.Region.{region, region_of};

use ow_entity::{EntityKind, Row};
use ow_names::{EntityName, FullName};
use std::cmp::Ordering;

/// The place of the row of the kind and the name, or where it would be inserted.
pub(crate) fn place(rows: &[Row], kind: EntityKind, name: &FullName) -> Result<usize, usize>
    requires { AreRows rows.now }
    ensures ok { IfOk result (λ i. (i < length rows.now) × HoldsAt (λ b. text_cmp (key_of b) (key kind name.now) ≡ Equal) rows.now i) }
    ensures err { IfErr result (λ i. (i ≤ length rows.now) × IsPartitionPoint (λ b. text_cmp (key_of b) (key kind name.now) ≡ Less) (λ b. text_cmp (key_of b) (key kind name.now) ≡ Greater) rows.now i) }
{
    rows.binary_search_by(|row| order(row, kind, name))
}

/// How the row compares to the kind and the name.
pub(crate) fn order(row: &Row, kind: EntityKind, name: &FullName) -> Ordering
    ensures order { result ≡ text_cmp (key_of row.now) (key kind name.now) }
    ensures kind { result ≡ Equal → kind_of row.now ≡ kind }
    ensures name { result ≡ Equal → name_of row.now ≡ name.now }
{
    kind_place(row.kind())
        .cmp(&kind_place(kind))
        .then(row.name().compare(name))
}

/// How the row compares to the rows of the kind in the namespace.
pub(crate) fn region_order(row: &Row, kind: EntityKind, namespace: &EntityName) -> Ordering
    ensures { result ≡ text_cmp (region_of row.now) (region kind namespace.now) }
{
    kind_place(row.kind())
        .cmp(&kind_place(kind))
        .then(row.name().namespace.compare_as_part(namespace))
}

fn kind_place(kind: EntityKind) -> u8
    ensures { result ≡ kind_place kind }
{
    match kind {
        EntityKind::Action => 0,
        EntityKind::Package => 1,
        EntityKind::Rule => 2,
        EntityKind::Trigger => 3,
    }
}
