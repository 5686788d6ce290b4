// The annotations that a list holds. What is read here may be written otherwise.
ghost use Rattle.std.specs.Prelude.{◌≡◌, codes, is_some, option_map, option_and_then, IfOk};
ghost use Rattle.ow_value.specs.Value.{items_of, members_of, object};
ghost use Rattle.ow_value.specs.Field.{field};
ghost use Rattle.ow_value.specs.View.{view, views};
ghost use Rattle.ow_entity.specs.Pairs.{pair_of};
ghost use Rattle.ow_records.specs.FieldsIn.{as_number, as_path};
ghost use Rattle.ow_records.specs.NotesIn.{as_kind, as_limits, as_notes, kind_named, note, notes_listed};

use crate::fields_in::{as_number, as_path, number_in};
use crate::{ExecKind, Notes};
use ow_entity::{Bounded, Limits};
use ow_names::FullName;
use ow_value::{NoMemory, Params, Str, Val};
use std::alloc::Global;

/// The kind of code that the field names.
pub fn kind_in(fields: &Params, name: &str) -> Option<ExecKind>
    ensures { result ≡ option_and_then as_kind (field name.now (object (members_of fields.now))) }
{
    match fields.find(name) {
        Some(value) => as_kind(value),
        None => None,
    }
}

fn as_kind(value: &Val) -> Option<ExecKind>
    ensures { result ≡ as_kind (view value.now) }
{
    match value {
        Val::Text(s) => kind_named(s.as_str()),
        _ => None,
    }
}

fn kind_named(text: &str) -> Option<ExecKind>
    ensures { result ≡ kind_named text.now }
{
    if text == "plain:1" {
        Some(ExecKind::Plain)
    } else if text == "program:1" {
        Some(ExecKind::Program)
    } else if text == "sequence" {
        Some(ExecKind::Sequence)
    } else {
        None
    }
}

/// The limits that the field is, each within its bounds.
pub fn limits_in(fields: &Params, name: &str) -> Option<Limits>
    ensures { result ≡ option_and_then as_limits (field name.now (object (members_of fields.now))) }
{
    match fields.find(name) {
        Some(value) => as_limits(value),
        None => None,
    }
}

fn as_limits(value: &Val) -> Option<Limits>
    ensures { result ≡ as_limits (view value.now) }
{
    let Val::Object(fields) = value else {
        return None;
    };
    let timeout = Bounded::of(number_in(fields, "timeout")?)?;
    let memory = Bounded::of(number_in(fields, "memory")?)?;
    let logs = Bounded::of(number_in(fields, "logs")?)?;
    Some(Limits {
        timeout,
        memory,
        logs,
    })
}

// The annotations that the field lists.
pub(crate) fn notes_in(
    alloc: Global,
    fields: &Params,
    name: &str,
) -> Result<Option<Notes>, NoMemory>
    ensures { IfOk result (λ n. n ≡ option_and_then as_notes (field name.now (object (members_of fields.now)))) }
{
    match fields.find(name) {
        Some(Val::List(items)) => Ok(Some(notes_listed(alloc, items.items())?)),
        _ => Ok(None),
    }
}

fn notes_listed(alloc: Global, items: &[Val]) -> Result<Notes, NoMemory>
    ensures { IfOk result (λ n. n ≡ notes_listed (items_of (views items.now))) }
{
    let binding = path_note(alloc, items, "binding")?;
    let path = path_note(alloc, items, "path")?;
    Ok(Notes {
        binding,
        caused_by: note(items, "causedBy").is_some(),
        init_time: moment_note(items, "initTime"),
        kind: kind_note(items),
        limits: limits_note(items),
        path,
        topmost: note(items, "topmost").is_some(),
        wait_time: moment_note(items, "waitTime"),
    })
}

fn path_note(alloc: Global, items: &[Val], key: &str) -> Result<Option<FullName>, NoMemory>
    ensures { IfOk result (λ n. n ≡ option_and_then as_path (note key.now (items_of (views items.now)))) }
{
    match note(items, key) {
        Some(value) => as_path(alloc, value),
        None => Ok(None),
    }
}

fn moment_note(items: &[Val], key: &str) -> Option<u64>
    ensures { result ≡ option_and_then as_number (note key.now (items_of (views items.now))) }
{
    match note(items, key) {
        Some(value) => as_number(value),
        None => None,
    }
}

fn kind_note(items: &[Val]) -> Option<ExecKind>
    ensures { result ≡ option_and_then as_kind (note (codes "kind") (items_of (views items.now))) }
{
    match note(items, "kind") {
        Some(value) => as_kind(value),
        None => None,
    }
}

fn limits_note(items: &[Val]) -> Option<Limits>
    ensures { result ≡ option_and_then as_limits (note (codes "limits") (items_of (views items.now))) }
{
    match note(items, "limits") {
        Some(value) => as_limits(value),
        None => None,
    }
}

// The value of the first annotation of the key.
fn note<'a>(items: &'a [Val], key: &str) -> Option<&'a Val>
    ensures { option_map (λ v. view v.now) result ≡ note key.now (items_of (views items.now)) }
{
    let mut rest = items;
    while let [item, after @ ..] = rest {
        if let Some((found, value)) = pair_of(item)
            && found.as_str() == key
        {
            return Some(value);
        }
        rest = after;
    }
    None
}

fn pair_of(item: &Val) -> Option<(&Str, &Val)>
    ensures { option_map (λ p. (p.0.now, view p.1.now)) result ≡ pair_of (view item.now) }
{
    let Val::Object(fields) = item else {
        return None;
    };
    match (fields.find("key"), fields.find("value")) {
        (Some(Val::Text(key)), Some(value)) => Some((key, value)),
        _ => None,
    }
}
