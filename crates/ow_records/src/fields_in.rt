// The fields of an object, as texts, numbers, ids, names and lists. What is read here may be written otherwise.
ghost use Rattle.std.specs.Prelude.{◌≡◌, ◌∷◌, option_map, option_and_then, IfOk};
ghost use Rattle.ow_value.specs.Value.{items_of, members_of, object};
ghost use Rattle.ow_value.specs.Field.{field};
ghost use Rattle.ow_value.specs.View.{view};
ghost use Rattle.ow_records.specs.FieldsIn.{as_id, as_lines, as_number, as_path, cause_in, id_in, lines_listed, name_in, name_of, number_in, path_in, path_of, text_in, version_in, version_of};

use crate::Id;
use ow_names::{EntityName, FullName, NameRefusal, read_full_text, read_name};
use ow_value::{Lines, NoMemory, Params, PlainData, Str, Val, Vals, digits_of};
use std::alloc::Global;

/// The text of the field.
pub fn text_in<'a>(fields: &'a Params, name: &str) -> Option<&'a Str>
    ensures { option_map (λ s. s.now) result ≡ text_in name.now (object (members_of fields.now)) }
{
    match fields.find(name) {
        Some(Val::Text(s)) => Some(s),
        _ => None,
    }
}

/// The number of the field, which isn't negative.
pub fn number_in(fields: &Params, name: &str) -> Option<u64>
    ensures { result ≡ number_in name.now (object (members_of fields.now)) }
{
    match fields.find(name) {
        Some(value) => as_number(value),
        None => None,
    }
}

pub(crate) fn as_number(value: &Val) -> Option<u64>
    ensures { result ≡ as_number (view value.now) }
{
    match value {
        Val::Int(n) => n.as_u64(),
        _ => None,
    }
}

/// The id of the field.
pub fn id_in(fields: &Params, name: &str) -> Option<Id>
    ensures { result ≡ id_in name.now (object (members_of fields.now)) }
{
    match fields.find(name) {
        Some(value) => as_id(value),
        None => None,
    }
}

fn as_id(value: &Val) -> Option<Id>
    ensures { result ≡ as_id (view value.now) }
{
    match value {
        Val::Text(s) => Id::of_text(s.as_str()),
        _ => None,
    }
}

/// The id of the field `cause`, or that none is there.
pub fn cause_in(fields: &Params) -> Option<Option<Id>>
    ensures { result ≡ cause_in (object (members_of fields.now)) }
{
    match fields.find("cause") {
        None => Some(None),
        Some(value) => match as_id(value) {
            Some(id) => Some(Some(id)),
            None => None,
        },
    }
}

/// The name of one part that the field is.
pub fn name_in(alloc: Global, fields: &Params, name: &str) -> Result<Option<EntityName>, NoMemory>
    ensures { IfOk result (λ n. n ≡ name_in name.now (object (members_of fields.now))) }
{
    match text_in(fields, name) {
        Some(s) => name_of(alloc, s.as_str().as_bytes()),
        None => Ok(None),
    }
}

fn name_of(alloc: Global, text: &[u8]) -> Result<Option<EntityName>, NoMemory>
    ensures { IfOk result (λ n. n ≡ name_of text.now) }
{
    match read_name(alloc, text) {
        Ok(name) => Ok(Some(name)),
        Err(NameRefusal::NoMemory) => Err(NoMemory),
        Err(_) => Ok(None),
    }
}

/// The full name that the field is as `namespace/name` or `namespace/package/name`.
pub fn path_in(alloc: Global, fields: &Params, name: &str) -> Result<Option<FullName>, NoMemory>
    ensures { IfOk result (λ n. n ≡ path_in name.now (object (members_of fields.now))) }
{
    match fields.find(name) {
        Some(value) => as_path(alloc, value),
        None => Ok(None),
    }
}

pub(crate) fn as_path(alloc: Global, value: &Val) -> Result<Option<FullName>, NoMemory>
    ensures { IfOk result (λ n. n ≡ as_path (view value.now)) }
{
    match value {
        Val::Text(s) => path_of(alloc, s.as_str()),
        _ => Ok(None),
    }
}

fn path_of(alloc: Global, text: &str) -> Result<Option<FullName>, NoMemory>
    ensures { IfOk result (λ n. n ≡ path_of text.now) }
{
    let full = format!(in alloc; "/{text}")?;
    match read_full_text(alloc, full.as_bytes()) {
        Ok(name) => Ok(Some(name)),
        Err(NameRefusal::NoMemory) => Err(NoMemory),
        Err(_) => Ok(None),
    }
}

/// The number n of the field, which is `0.0.n`.
pub fn version_in(fields: &Params, name: &str) -> Option<u32>
    ensures { result ≡ version_in name.now (object (members_of fields.now)) }
{
    match text_in(fields, name) {
        Some(s) => version_of(s.as_str().as_bytes()),
        None => None,
    }
}

fn version_of(text: &[u8]) -> Option<u32>
    ensures { result ≡ version_of text.now }
{
    match digits_of(text.get(4..).unwrap_or(&[])) {
        Some(n) if n < 4294967296 => Some(n as u32),
        _ => None,
    }
}

/// The texts of the list that the field is.
pub fn lines_in(alloc: Global, fields: &Params, name: &str) -> Result<Option<Lines>, NoMemory>
    ensures { IfOk result (λ ls. ls ≡ option_and_then as_lines (field name.now (object (members_of fields.now)))) }
{
    match fields.find(name) {
        Some(Val::List(items)) => lines_listed(alloc, items),
        _ => Ok(None),
    }
}

fn lines_listed(alloc: Global, items: &Vals) -> Result<Option<Lines>, NoMemory>
    ensures { IfOk result (λ ls. ls ≡ lines_listed (items_of items.now)) }
{
    let mut lines = Vec::new(alloc);
    for item in items.items() {
        let Val::Text(s) = item else {
            return Ok(None);
        };
        lines.push(s.copy(alloc)?)?;
    }
    Ok(Some(Lines::from_vec(lines)?))
}
