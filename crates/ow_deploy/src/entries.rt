// What a manifest lists, in the order in which it is to be put.
ghost use Rattle.std.specs.Prelude.{◌≡◌, ◌++◌, [], ◌∷◌, map, IfOk, OnOk};
ghost use Rattle.toml.specs.View.{view, table_view};
ghost use Rattle.ow_entity.specs.declared.kinds.EntityKind.TheVariants as kinds;
ghost use Rattle.ow_deploy.specs.Entries.{binds, binds_as, chosen, listed, listing, listings, members_at, packages};
ghost use Rattle.ow_deploy.specs.EntryView.{entry_view, table_members};

use crate::top::value_at;
use ow_entity::EntityKind;
use ow_value::NoMemory;
use std::alloc::Global;
use toml::{Table, Value};

/// An entity as the manifest lists it.
#[derive(Clone, Copy, Drop)]
pub(crate) struct Entry<'a> {
    /// Of which kind it is.
    pub(crate) kind: EntityKind,
    /// As the manifest writes it.
    pub(crate) path: &'a str,
    /// What is to become its body.
    pub(crate) body: &'a Value,
}

/// All that the manifest lists.
pub(crate) fn listed<'a>(alloc: Global, top: &'a Table) -> Result<Vec<Entry<'a>>, NoMemory>
    ensures { IfOk result (λ es. map entry_view es.items ≡ listed (table_view top.now)) }
{
    let mut entries = Vec::new(alloc);
    let packages = members_at(top, "packages");
    put_packages(&mut entries, false, packages)?;
    put_packages(&mut entries, true, packages)?;
    put_all(&mut entries, EntityKind::Action, members_at(top, "actions"))?;
    put_all(
        &mut entries,
        EntityKind::Trigger,
        members_at(top, "triggers"),
    )?;
    put_all(&mut entries, EntityKind::Rule, members_at(top, "rules"))?;
    Ok(entries)
}

fn members_at<'a>(top: &'a Table, name: &str) -> Option<&'a Table>
    ensures { table_members result ≡ members_at name.now (table_view top.now) }
{
    match value_at(top, name) {
        Some(value) => value.as_table(),
        None => None,
    }
}

fn put_packages<'a>(
    entries: &mut Vec<Entry<'a>>,
    bound: bool,
    members: Option<&'a Table>,
) -> Result<(), NoMemory>
    ensures { OnOk result (map entry_view entries.new.items ≡ map entry_view entries.old.items ++ packages bound (table_members members.entry)) }
{
    match members {
        Some(table) => put_each_package(entries, bound, table),
        None => Ok(()),
    }
}

fn put_each_package<'a>(
    entries: &mut Vec<Entry<'a>>,
    bound: bool,
    table: &'a Table,
) -> Result<(), NoMemory>
    ensures { OnOk result (map entry_view entries.new.items ≡ map entry_view entries.old.items ++ packages bound (table_view table.now)) }
{
    for (path, body) in table.iter() {
        put_package(entries, bound, path.as_str(), body)?;
    }
    Ok(())
}

// The package, if its body binds another where `bound` is set, or binds none where it is not.
fn put_package<'a>(
    entries: &mut Vec<Entry<'a>>,
    bound: bool,
    path: &'a str,
    body: &'a Value,
) -> Result<(), NoMemory>
    ensures { OnOk result (map entry_view entries.new.items ≡ map entry_view entries.old.items ++ chosen bound (listing kinds.Package path.now (view body.now) ∷ [])) }
{
    if binds_as(bound, body) {
        put(entries, EntityKind::Package, path, body)?;
    }
    Ok(())
}

fn binds_as(bound: bool, body: &Value) -> bool
    ensures { result ≡ binds_as bound (view body.now) }
{
    if bound { binds(body) } else { !binds(body) }
}

fn binds(body: &Value) -> bool
    ensures { result ≡ binds (view body.now) }
{
    body.get("binding").is_some()
}

fn put_all<'a>(
    entries: &mut Vec<Entry<'a>>,
    kind: EntityKind,
    members: Option<&'a Table>,
) -> Result<(), NoMemory>
    ensures { OnOk result (map entry_view entries.new.items ≡ map entry_view entries.old.items ++ listings kind (table_members members.entry)) }
{
    match members {
        Some(table) => put_each(entries, kind, table),
        None => Ok(()),
    }
}

fn put_each<'a>(
    entries: &mut Vec<Entry<'a>>,
    kind: EntityKind,
    table: &'a Table,
) -> Result<(), NoMemory>
    ensures { OnOk result (map entry_view entries.new.items ≡ map entry_view entries.old.items ++ listings kind (table_view table.now)) }
{
    for (path, body) in table.iter() {
        put(entries, kind, path.as_str(), body)?;
    }
    Ok(())
}

fn put<'a>(
    entries: &mut Vec<Entry<'a>>,
    kind: EntityKind,
    path: &'a str,
    body: &'a Value,
) -> Result<(), NoMemory>
    ensures { OnOk result (map entry_view entries.new.items ≡ map entry_view entries.old.items ++ listing kind path.now (view body.now) ∷ []) }
{
    entries.push(Entry { kind, path, body })?;
    Ok(())
}
