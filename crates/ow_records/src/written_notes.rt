// Annotations as clients see them.
ghost use Rattle.std.specs.Prelude.{◌≡◌, ◌∷◌, [], ◌++◌, IfOk, OnOk};
ghost use Rattle.ow_value.specs.Value.{text};
ghost use Rattle.ow_value.specs.View.{view, views};
ghost use Rattle.ow_entity.specs.Pairs.{pair_value};
ghost use Rattle.ow_records.specs.WrittenNotes.{kind_note, limits_note, mark_note, moment_note, name_note, notes_value, path_text, word_note};

use crate::written::{number, put, text};
use crate::{ExecKind, Notes};
use ow_entity::Limits;
use ow_names::FullName;
use ow_value::{Fields, NoMemory, Str, Val, Vals};
use std::alloc::Global;

/// The annotations, as a list of a `{"key": name, "value": value}` for each.
pub(crate) fn notes_value(alloc: Global, notes: &Notes) -> Result<Val, NoMemory>
    ensures { IfOk result (λ v. view v ≡ notes_value notes.now) }
{
    let mut list = Vec::new(alloc);
    add_name(alloc, &mut list, "binding", &notes.binding)?;
    add_word(alloc, &mut list, "causedBy", "sequence", notes.caused_by)?;
    add_moment(alloc, &mut list, "initTime", notes.init_time)?;
    add_kind(alloc, &mut list, notes.kind)?;
    add_limits(alloc, &mut list, notes.limits)?;
    add_name(alloc, &mut list, "path", &notes.path)?;
    add_mark(alloc, &mut list, "topmost", notes.topmost)?;
    add_moment(alloc, &mut list, "waitTime", notes.wait_time)?;
    Ok(Val::List(Vals::from_vec(list)?))
}

fn add_name(
    alloc: Global,
    list: &mut Vec<Val>,
    key: &str,
    name: &Option<FullName>,
) -> Result<(), NoMemory>
    ensures { OnOk result (views list.new.items ≡ views list.old.items ++ name_note key.now name.now) }
{
    match name {
        Some(name) => add(alloc, list, key, path_value(alloc, name)?),
        None => Ok(()),
    }
}

fn add_moment(
    alloc: Global,
    list: &mut Vec<Val>,
    key: &str,
    moment: Option<u64>,
) -> Result<(), NoMemory>
    ensures { OnOk result (views list.new.items ≡ views list.old.items ++ moment_note key.now moment) }
{
    match moment {
        Some(moment) => add(alloc, list, key, number(moment)),
        None => Ok(()),
    }
}

fn add_kind(alloc: Global, list: &mut Vec<Val>, kind: Option<ExecKind>) -> Result<(), NoMemory>
    ensures { OnOk result (views list.new.items ≡ views list.old.items ++ kind_note kind) }
{
    match kind {
        Some(kind) => add(alloc, list, "kind", text(alloc, kind.text())?),
        None => Ok(()),
    }
}

fn add_limits(alloc: Global, list: &mut Vec<Val>, limits: Option<Limits>) -> Result<(), NoMemory>
    ensures { OnOk result (views list.new.items ≡ views list.old.items ++ limits_note limits) }
{
    match limits {
        Some(limits) => add(alloc, list, "limits", limits.value(alloc)?),
        None => Ok(()),
    }
}

fn add_word(
    alloc: Global,
    list: &mut Vec<Val>,
    key: &str,
    word: &str,
    marked: bool,
) -> Result<(), NoMemory>
    ensures { OnOk result (views list.new.items ≡ views list.old.items ++ word_note key.now word.now marked) }
{
    if marked {
        add(alloc, list, key, text(alloc, word)?)
    } else {
        Ok(())
    }
}

fn add_mark(alloc: Global, list: &mut Vec<Val>, key: &str, marked: bool) -> Result<(), NoMemory>
    ensures { OnOk result (views list.new.items ≡ views list.old.items ++ mark_note key.now marked) }
{
    if marked {
        add(alloc, list, key, Val::Bool(true))
    } else {
        Ok(())
    }
}

// Appends the annotation.
fn add(alloc: Global, list: &mut Vec<Val>, key: &str, value: Val) -> Result<(), NoMemory>
    ensures { OnOk result (views list.new.items ≡ views list.old.items ++ pair_value (key.now, view value) ∷ []) }
{
    list.push(pair_value(alloc, key, value)?)?;
    Ok(())
}

fn pair_value(alloc: Global, key: &str, value: Val) -> Result<Val, NoMemory>
    ensures { IfOk result (λ v. view v ≡ pair_value (key.now, view value)) }
{
    let mut fields = Fields::new(alloc);
    put(alloc, &mut fields, "value", value)?;
    put(alloc, &mut fields, "key", text(alloc, key)?)?;
    Ok(Val::Object(fields.into_params()?))
}

fn path_value(alloc: Global, name: &FullName) -> Result<Val, NoMemory>
    ensures { IfOk result (λ v. view v ≡ text (path_text name.now)) }
{
    let namespace = name.namespace.as_str();
    let last = name.name.as_str();
    let shown = match &name.package {
        None => format!(in alloc; "{namespace}/{last}")?,
        Some(package) => {
            let package = package.as_str();
            format!(in alloc; "{namespace}/{package}/{last}")?
        }
    };
    Ok(Val::Text(Str::from_string(shown)?))
}
