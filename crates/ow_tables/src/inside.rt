// What lies in packages.
ghost use Rattle.std.specs.Prelude.{◌≡◌, filter, map, IfOk};
ghost use Rattle.std.specs.List.{list_any};
ghost use Rattle.ow_entity.specs.Written.{package_entry};
ghost use Rattle.ow_tables.specs.Inside.{actions_in, holds_actions, lies_under};
ghost use Rattle.ow_tables.specs.Region.{AreKept};

use crate::listing::part;
use ow_entity::{EntityKind, Row, package_entry};
use ow_names::{EntityName, FullName};
use ow_value::{NoMemory, Vals};
use std::alloc::Global;

/// What a package shows of the actions that lie in the package of the name.
#[tactic(auto, using(crate::proofs::InsideLaws::filter_both))]
pub(crate) fn actions_in(alloc: Global, rows: &[Row], bundle: &FullName) -> Result<Vals, NoMemory>
    requires { AreKept rows.now }
    ensures { IfOk result (λ vs. vs ≡ map package_entry (actions_in bundle.now rows.now)) }
{
    let rows = part(rows, EntityKind::Action, &bundle.namespace);
    entries(alloc, rows, &bundle.name)
}

/// Whether an action lies in the package of the name.
pub(crate) fn holds_actions(rows: &[Row], bundle: &FullName) -> bool
    requires { AreKept rows.now }
    ensures { result ≡ holds_actions bundle.now rows.now }
{
    let rows = part(rows, EntityKind::Action, &bundle.namespace);
    is_any_under(rows, &bundle.name)
}

// Whether any of the rows lies in a package that is called so.
fn is_any_under(rows: &[Row], bundle: &EntityName) -> bool
    ensures { result ≡ list_any (lies_under bundle.now) rows.now }
{
    rows.iter().any(|row| lies_under(row, bundle))
}

// What a package shows of the rows that lie under this name.
fn entries(alloc: Global, rows: &[Row], bundle: &EntityName) -> Result<Vals, NoMemory>
    ensures { IfOk result (λ vs. vs ≡ map package_entry (filter (lies_under bundle.now) rows.now)) }
{
    let mut shown = Vec::new(alloc);
    for row in rows {
        if lies_under(row, bundle) {
            shown.push(package_entry(alloc, row)?)?;
        }
    }
    Vals::from_vec(shown)
}

// Whether the row lies in a package that is called so.
fn lies_under(row: &Row, bundle: &EntityName) -> bool
    ensures { result ≡ lies_under bundle.now row.now }
{
    match &row.name().package {
        Some(inside) => bundle.as_str() == inside.as_str(),
        None => false,
    }
}
