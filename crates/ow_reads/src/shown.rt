// Rows as clients see them, among the current rows.
ghost use Rattle.std.specs.Prelude.{◌≡◌, [], ◌∷◌, codes, IfOk};
ghost use Rattle.ow_value.specs.Value.{list, items_of};
ghost use Rattle.ow_value.specs.View.{view};
ghost use Rattle.ow_tables.specs.Rows.{with_row};
ghost use Rattle.ow_reads.specs.Shown.{actions_of, shown_row, shown_with, with_member};

use ow_entity::{Row, write_entity};
use ow_tables::Tables;
use ow_value::{Fields, NoMemory, Params, Str, Val, Vals, merge};
use std::alloc::Global;

/// The row as a client sees it: a package with its actions.
pub fn shown_row(alloc: Global, tables: &Tables, row: &Row) -> Result<Val, NoMemory>
    ensures { IfOk result (λ v. view v ≡ shown_row tables.now.rows row.now) }
{
    let actions = match row {
        Row::Package(bundle) => tables.actions_of(alloc, bundle.get())?,
        _ => Vals::new(),
    };
    shown_with(alloc, actions, row)
}

/// The row as a client will see it once it is put.
pub fn shown_once_put(alloc: Global, tables: &Tables, row: &Row) -> Result<Val, NoMemory>
    ensures { IfOk result (λ v. view v ≡ shown_row (with_row row.now tables.now.rows) row.now) }
{
    let actions = match row {
        Row::Package(bundle) => tables.actions_once_put(alloc, bundle.get())?,
        _ => Vals::new(),
    };
    shown_with(alloc, actions, row)
}

fn shown_with(alloc: Global, actions: Vals, row: &Row) -> Result<Val, NoMemory>
    ensures { IfOk result (λ v. view v ≡ shown_with actions row.now) }
{
    match row {
        Row::Package(_) => with_actions(alloc, write_entity(alloc, row)?, actions),
        _ => write_entity(alloc, row),
    }
}

// The object with the actions beside its members.
fn with_actions(alloc: Global, written: Val, actions: Vals) -> Result<Val, NoMemory>
    ensures { IfOk result (λ v. view v ≡ with_member (view written) (codes "actions") (list (items_of actions))) }
{
    match written {
        Val::Object(members) => {
            let actions = member(alloc, "actions", Val::List(actions))?;
            Ok(Val::Object(merge(alloc, &members, &actions)?))
        }
        other => Ok(other),
    }
}

// An object of one member.
fn member(alloc: Global, name: &str, value: Val) -> Result<Params, NoMemory>
    ensures { IfOk result (λ ps. ps ≡ (name.now, view value) ∷ []) }
{
    let mut fields = Fields::new(alloc);
    fields.set(Str::of(alloc, name)?, value)?;
    fields.into_params()
}
